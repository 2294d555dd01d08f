// The pass of Rauch, Tung and Striebel over slots in a buffer that the caller lends, with the operations and the order of
// src/estimator/rts_smoother.rs. How slots lie in it: crates/duty; two states go by their numbers (two.rt).
// Rests on the definition in crates/smoothing.
#![tactic(auto)]

ghost use Rattle.std.specs.Prelude.{◌≡◌, ◌+◌, ◌*◌, ◌≤◌, length};
ghost use Rattle.sizes.specs.Size.{count, part};
ghost use Rattle.layout.specs.Layout.{pair_length as pair_length_of, stride as stride_of};
ghost use Rattle.smoothing.specs.Smoother.{smooth_slots};
ghost use Rattle.smoothing.specs.Demand3.{Demand3};
ghost use Rattle.duty.specs.Buffer.{slot_from, slots_of};
ghost use Rattle.duty.specs.Passed.{Passed, smooth_of};
ghost use Rattle.rts_pass.specs.Call.{duty, run};
ghost use Rattle.rts_pass.specs.Pass.{smooth_rows};

use answer::Refusal;
use duty::{Room, pair_length, stride};
use sizes::Size;

mod two;

// ---- a slot of any size, given by the number k at which it begins

// x and p, the next slot's smoothed pair, become this slot's. Refused as singular: inversion rejects the slot's predicted covariance.
fn step<'a>(
    slots: &'a [f64],
    k: usize,
    n: Size,
    f: &'a [[f64; 4]; 4],
    x: &mut [f64; 4],
    p: &mut [[f64; 4]; 4],
) -> Result<(), Refusal>
    requires { k + stride_of (count n) ≤ length slots.now }
    ensures { (result, (x.new, p.new))
        ≡ smooth_rows n f.now (slot_from (count n) slots.now k) x.old p.old }
{
    let states = usize::from(n);
    let predicted = k + pair_length(n);
    let q = layout::matrix_at(slots, predicted + states, n, n);
    let w = inverse::inverse_of(&q, n)?;
    let c = layout::matrix_at(slots, k + states, n, n);
    let g = steps::gain(&c, f, &w, n, n);
    let state = layout::vector_at(slots, k, n);
    let y = layout::vector_at(slots, predicted, n);
    let dx = kernel::vector_difference(*x, y, n);
    let dp = kernel::difference(p, &q, n, n);
    *x = steps::corrected_state(&g, &dx, &state, n, n);
    *p = steps::propagated(&g, &dp, &c, n, n);
    Ok(())
}

// ---- all slots

// The smoothed pairs of the stored slots into out, pair k from number k (n + n²) on. Refused as singular: inversion rejects the
// predicted covariance of a slot before the last.
fn smooth_slots<'a>(
    slots: &'a [f64],
    n: Size,
    stored: usize,
    f: &'a [[f64; 4]; 4],
    out: &mut [f64],
) -> Result<(), Refusal>
    requires { (1 ≤ stored) × (stored ≤ 64)
        × (stored * stride_of (count n) ≤ length slots.now) × (stored * pair_length_of (count n) ≤ length out.old) }
    ensures { Passed (smooth_slots (count n) (part n n f.now) (slots_of (count n) slots.now stored))
        out.old out.new result }
{
    if n == Size::Two {
        return two::smooth_slots_two(slots, stored, f, out);
    }
    let pair = pair_length(n);
    let slot = stride(n);
    let last = stored - 1;
    let mut x = layout::vector_at(slots, last * slot, n);
    let mut p = layout::matrix_at(slots, last * slot + usize::from(n), n, n);
    // The index is a place among the slots and among the pairs.
    for k in (0..last).rev() {
        layout::put_pair(out, (k + 1) * pair, x, &p, n);
        step(slots, k * slot, n, f, &mut x, &mut p)?;
    }
    layout::put_pair(out, 0, x, &p, n);
    Ok(())
}

// ---- the call

// The smoothed pairs of the first slots, as many as are counted, into output, state and then covariance by rows, and +0 past them.
// The pairs are made in a buffer of the largest size: a refusal leaves the output unchanged. Refused with 1: a size, a count above
// the room, a buffer that is not just the room's slots or pairs long; with 2: no slot; with 3: inversion rejects the predicted
// covariance of a slot before the last.
pub fn smooth(
    slots: &[f64],
    room: Room,
    transition: [[f64; 4]; 4],
    output: &mut [f64],
) -> Result<(), Refusal>
    ensures { (result, output.new) ≡ smooth_of room.n room.room room.count slots.now transition output.old }
{
    let size = room.smoothable(slots.len(), output.len())?;
    if room.count == 0 {
        return Err(Refusal::InsufficientData);
    }
    let mut pairs = [0.0; 1280];
    smooth_slots(slots, size, room.count, &transition, &mut pairs[..])?;
    let end = output.len();
    output.copy_from_slice(&pairs[..end]);
    Ok(())
}

// A promise: nothing is done, and the crate is not proved without demand 3 of the call.
pub fn demand3_of_call()
    ensures { Demand3 duty run }
{}
