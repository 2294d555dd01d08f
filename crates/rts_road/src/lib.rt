// A slot of two states by its numbers, smoothed as Rauch, Tung and Striebel do, with the operations and the order of
// src/estimator/rts_smoother.rs. Each sum starts at +0, as for any size.
#![tactic(auto)]

ghost use Rattle.std.specs.Prelude.{◌≡◌};
ghost use Rattle.answer.specs.Answer.{mapped};
ghost use Rattle.road.specs.Road.{matrix_of, estimate_of};
ghost use Rattle.smoothing.specs.Smoother.{smoothed_pair, smooth_slot};
ghost use Rattle.rts_road.specs.Slot.{slot_of_two};

use answer::Refusal;
use road::{Pair, Two};

// x + G d, and P + (G D) Gᵀ, with d and D the next slot's smoothed pair less the predicted pair y.
fn corrected_two(e: Pair, y: Pair, g: Two, next: Pair) -> Pair
    ensures { estimate_of result ≡ smoothed_pair 2 (slot_of_two e y) (matrix_of g) (estimate_of next) }
{
    let p = e.p;
    let q = y.p;
    let m = next.p;
    let d0 = next.x0 - y.x0;
    let d1 = next.x1 - y.x1;
    let a = m.a - q.a;
    let b = m.b - q.b;
    let c = m.c - q.c;
    let d = m.d - q.d;
    let s0 = 0.0 + g.a * a + g.b * c;
    let s1 = 0.0 + g.a * b + g.b * d;
    let t0 = 0.0 + g.c * a + g.d * c;
    let t1 = 0.0 + g.c * b + g.d * d;
    Pair {
        x0: e.x0 + (0.0 + g.a * d0 + g.b * d1),
        x1: e.x1 + (0.0 + g.c * d0 + g.d * d1),
        p: Two {
            a: p.a + (0.0 + s0 * g.a + s1 * g.b),
            b: p.b + (0.0 + s0 * g.c + s1 * g.d),
            c: p.c + (0.0 + t0 * g.a + t1 * g.b),
            d: p.d + (0.0 + t0 * g.c + t1 * g.d),
        },
    }
}

// The slot of the filtered pair e and the predicted pair y, with the transition f, before a slot whose smoothed pair is next.
// Refused as singular: inversion rejects the predicted covariance.
pub fn smooth_two(e: Pair, y: Pair, f: Two, next: Pair) -> Result<Pair, Refusal>
    ensures { mapped estimate_of result ≡ smooth_slot 2 (matrix_of f) (slot_of_two e y) (estimate_of next) }
{
    let w = y.p.inverse()?;
    let g = road::gain(e.p, f, w);
    Ok(corrected_two(e, y, g, next))
}
