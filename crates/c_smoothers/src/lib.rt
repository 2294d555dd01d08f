// src/estimator/rts_smoother.rs on slices that the caller lends: state size n, room for slots in one slice, and a count that the
// caller keeps. A pair is a state and its covariance by rows; a slot is the filtered pair and the predicted one. A store and a
// slot handed out are copies. Refused with 1: a size, a count above room, or a slice of another length.
#![tactic(auto)]

ghost use Rattle.std.specs.Prelude.{◌≡◌, ◌≤◌, length};
ghost use Rattle.answer.specs.Answer.{where_sized};
ghost use Rattle.answer.specs.Told.{written};
ghost use Rattle.sizes.specs.Size.{size_of};
ghost use Rattle.smoothing.specs.Demand3.{Demand3};
ghost use Rattle.c_smoothers.specs.Call.{duty, run};
ghost use Rattle.c_smoothers.specs.Smoother.{is_pairs, is_square, storable, store_in, slot_in, smooth_in};

use answer::Refusal;
use duty::{Room, pair_length, stride};
use sizes::{Size, fits};

// ---- sizes: the state size, or the refusal

// A slice of len numbers is just k pairs.
#[tactic(auto, unfolding(crate::specs::Smoother::is_pairs))]
fn pairs(n: usize, k: usize, len: usize) -> Result<Size, Refusal>
    requires { k ≤ 2 }
    ensures { result ≡ where_sized (is_pairs n k len) (size_of n) }
{
    let size = Size::try_from(n)?;
    fits(len == k * pair_length(size))?;
    Ok(size)
}

// A slice of len numbers is just n rows of n.
#[tactic(auto, unfolding(crate::specs::Smoother::is_square))]
fn square(n: usize, len: usize) -> Result<Size, Refusal>
    ensures { result ≡ where_sized (is_square n len) (size_of n) }
{
    let size = Size::try_from(n)?;
    fits(len == n * n)?;
    Ok(size)
}

// A pair, another pair, and the slots.
fn storable(room: Room, slots: usize, filtered: usize, predicted: usize) -> Result<Size, Refusal>
    ensures { result ≡ where_sized (storable room.n room.room room.count slots filtered predicted) (size_of room.n) }
{
    pairs(room.n, 1, filtered)?;
    pairs(room.n, 1, predicted)?;
    room.buffered(slots)
}

// ---- the calls

// One slot more, after those stored, and the count one more. Refused with 5: the count is the room.
pub fn rts_smoother_store_forward(
    n: usize,
    room: usize,
    count: &mut usize,
    slots: &mut [f64],
    filtered: &[f64],
    predicted: &[f64],
) -> Result<(), Refusal>
    ensures { (result, (count.new, slots.new)) ≡ written (count.old, slots.old)
        (store_in n room count.old slots.old filtered.now predicted.now) }
{
    let stored = *count;
    let lent = Room {
        n,
        room,
        count: stored,
    };
    let size = storable(lent, slots.len(), filtered.len(), predicted.len())?;
    if room <= stored {
        return Err(Refusal::BufferFull);
    }
    let at = stored * stride(size);
    layout::put_slice(slots, at, filtered);
    layout::put_slice(slots, at + filtered.len(), predicted);
    *count = stored + 1;
    Ok(())
}

// A copy of slot k. Refused with 6: k is not below the count.
pub fn rts_smoother_get_state(
    n: usize,
    room: usize,
    count: usize,
    slots: &[f64],
    k: usize,
    out: &mut [f64],
) -> Result<(), Refusal>
    ensures { (result, out.new) ≡ written out.old (slot_in n room count slots.now k (length out.old)) }
{
    pairs(n, 2, out.len())?;
    layout::put_slice(out, 0, Room { n, room, count }.slot(slots, k)?);
    Ok(())
}

// The smoothed pairs of the stored slots into output, and +0 past them. Refused with 2: no slot; with 3: inversion rejects the
// predicted covariance of a slot before the last.
pub fn rts_smoother_smooth(
    n: usize,
    room: usize,
    count: usize,
    slots: &[f64],
    transition: &[f64],
    output: &mut [f64],
) -> Result<(), Refusal>
    ensures { (result, output.new) ≡ written output.old
        (smooth_in n room count slots.now transition.now (length output.old)) }
{
    let size = square(n, transition.len())?;
    let f = layout::matrix_at(transition, 0, size, size);
    rts_pass::smooth(slots, Room { n, room, count }, f, output)
}

// A promise: nothing is done, and the crate is not proved without demand 3 of `rts_smoother_smooth`, which has a name for C.
pub fn demand3_of_slices()
    ensures { Demand3 duty run }
{}
