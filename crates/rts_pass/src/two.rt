// The pass over slots of two states, by their numbers: a slot is twelve, and a smoothed pair six. The pair of the slot after stays in
// numbers. Beside the pass of any size for speed: docs/SPEED.md's bar at two states is met straight-line.
ghost use Rattle.std.specs.Prelude.{◌≡◌, ◌+◌, ◌*◌, ◌≤◌, length};
ghost use Rattle.sizes.specs.Size.{part};
ghost use Rattle.layout.specs.Layout.{matrix_at, placed};
ghost use Rattle.road.specs.Road.{matrix_of, estimate_of};
ghost use Rattle.smoothing.specs.Smoother.{smooth_slots};
ghost use Rattle.duty.specs.Buffer.{pair_at, slots_of, pair_numbers};
ghost use Rattle.duty.specs.Passed.{Passed};

use answer::Refusal;
use road::{Pair, Two};
use rts_road::smooth_two;
use sizes::Size;

// The rows of two numbers from number k on.
fn two_at(b: &[f64], k: usize) -> Two
    requires { k + 4 ≤ length b.now }
    ensures { matrix_of result ≡ matrix_at 2 2 b.now k }
{
    Two {
        a: b[k],
        b: b[k + 1],
        c: b[k + 2],
        d: b[k + 3],
    }
}

#[tactic(auto, unfolding(duty::specs::Buffer::pair_at))]
fn pair_at(b: &[f64], k: usize) -> Pair
    requires { k + 6 ≤ length b.now }
    ensures { estimate_of result ≡ pair_at 2 b.now k }
{
    let p = two_at(b, k + 2);
    Pair {
        x0: b[k],
        x1: b[k + 1],
        p,
    }
}

fn put_two(out: &mut [f64], k: usize, e: Pair)
    requires { k + 6 ≤ length out.old }
    ensures { out.new ≡ placed k (pair_numbers (estimate_of e)) out.old }
{
    let p = e.p;
    out[k..k + 6].copy_from_slice(&[e.x0, e.x1, p.a, p.b, p.c, p.d]);
}

// The smoothed pairs of the stored slots into out, pair k from number 6 k on; the pair of the slot after stays in numbers. Refused
// as singular: inversion rejects the predicted covariance of a slot before the last.
pub(crate) fn smooth_slots_two<'a>(
    slots: &'a [f64],
    stored: usize,
    f: &'a [[f64; 4]; 4],
    out: &mut [f64],
) -> Result<(), Refusal>
    requires { (1 ≤ stored) × (stored ≤ 64) × (stored * 12 ≤ length slots.now) × (stored * 6 ≤ length out.old) }
    ensures { Passed (smooth_slots 2 (part Size.Two Size.Two f.now) (slots_of 2 slots.now stored))
        out.old out.new result }
{
    let t = Two {
        a: f[0][0],
        b: f[0][1],
        c: f[1][0],
        d: f[1][1],
    };
    let last = stored - 1;
    let mut e = pair_at(slots, last * 12);
    // The index is a place among the slots and among the pairs.
    for k in (0..last).rev() {
        put_two(out, (k + 1) * 6, e);
        e = smooth_two(pair_at(slots, k * 12), pair_at(slots, k * 12 + 6), t, e)?;
    }
    put_two(out, 0, e);
    Ok(())
}
