// Slots by their numbers, twelve each: a slot written, the latest that inversion rejects, and the positions among the numbers.
ghost use Rattle.std.specs.Prelude.{◌≡◌, ◌+◌, ◌*◌, ◌≤◌, length};
ghost use Rattle.layout.specs.Layout.{placed};
ghost use Rattle.duty.specs.Buffer.{slot_numbers, slots_of};
ghost use Rattle.rts_road.specs.Slot.{slot_of_two};
ghost use Rattle.tracking.specs.Track.{latest};
ghost use Rattle.tracker.specs.Tracked.{gathered_from};

use road::Pair;
use small_inverse::inverse_two;

// The slot of the filtered pair e and the predicted pair y from number k on.
pub(crate) fn put_slot(slots: &mut [f64], k: usize, e: Pair, y: Pair)
    requires { k + 12 ≤ length slots.old }
    ensures { slots.new ≡ placed k (slot_numbers (slot_of_two e y)) slots.old }
{
    let p = e.p;
    let q = y.p;
    slots[k..k + 12].copy_from_slice(&[
        e.x0, e.x1, p.a, p.b, p.c, p.d, y.x0, y.x1, q.a, q.b, q.c, q.d,
    ]);
}

// The latest slot before the last whose predicted covariance inversion rejects.
pub(crate) fn latest_rejected(slots: &[f64], stored: usize) -> Option<usize>
    requires { (stored ≤ 64) × (stored * 12 ≤ length slots.now) }
    ensures { result ≡ latest 2 (slots_of 2 slots.now stored) }
{
    // The index is a slot, and a place among the numbers.
    for k in (0..stored.saturating_sub(1)).rev() {
        let q = k * 12 + 8;
        let inverse = inverse_two(slots[q], slots[q + 1], slots[q + 2], slots[q + 3]);
        if inverse.is_err() {
            return Some(k);
        }
    }
    None
}

// The numbers 0, w, 2 w and so on of b, as many as count, and +0 past them.
pub(crate) fn gathered(b: &[f64], w: usize, count: usize) -> [f64; 64]
    requires { (count ≤ 64) × (w ≤ 12) × (1 ≤ w) × (count * w ≤ length b.now) }
    ensures { result ≡ gathered_from b.now w count }
{
    let mut out = [0.0; 64];
    // The index is a place of out, and w times it the number's.
    for k in 0..count {
        out[k] = b[k * w];
    }
    out
}
