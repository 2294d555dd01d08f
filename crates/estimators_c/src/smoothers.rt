// src/estimator/rts_smoother.rs for C: each export calls the function of its name, and has its contract.
ghost use Rattle.std.specs.Prelude.{◌≡◌, length};
ghost use Rattle.answer.specs.Told.{given};
ghost use Rattle.c_smoothers.specs.Smoother.{store_in, slot_in, smooth_in};

use answer::number_of;
use estimators::smoothers;

// One slot more, after those stored, and the count one more. Refused with 5: the count is the room.
#[unsafe(no_mangle)]
pub extern "C" fn estimators_rts_smoother_store_forward(
    n: usize,
    room: usize,
    count: &mut usize,
    slots: &mut [f64],
    filtered: &[f64],
    predicted: &[f64],
) -> u8
    ensures { (result, (count.new, slots.new)) ≡ given (count.old, slots.old)
        (store_in n room count.old slots.old filtered.now predicted.now) }
{
    number_of(smoothers::estimators_rts_smoother_store_forward(
        n, room, count, slots, filtered, predicted,
    ))
}

// A copy of slot k. Refused with 6: k is not below the count.
#[unsafe(no_mangle)]
pub extern "C" fn estimators_rts_smoother_get_state(
    n: usize,
    room: usize,
    count: usize,
    slots: &[f64],
    k: usize,
    out: &mut [f64],
) -> u8
    ensures { (result, out.new) ≡ given out.old (slot_in n room count slots.now k (length out.old)) }
{
    number_of(smoothers::estimators_rts_smoother_get_state(n, room, count, slots, k, out))
}

// The smoothed pairs of the stored slots into output, and +0 past them. Refused with 2: no slot; with 3: inversion rejects the
// predicted covariance of a slot before the last.
#[unsafe(no_mangle)]
pub extern "C" fn estimators_rts_smoother_smooth(
    n: usize,
    room: usize,
    count: usize,
    slots: &[f64],
    transition: &[f64],
    output: &mut [f64],
) -> u8
    ensures { (result, output.new) ≡ given output.old
        (smooth_in n room count slots.now transition.now (length output.old)) }
{
    number_of(smoothers::estimators_rts_smoother_smooth(n, room, count, slots, transition, output))
}
