// Mixing of two models of one road, written out: two states each, by their numbers and not in arrays, so that a slice is read
// where its numbers stand. Each sum starts at +0, as for any size.
#![tactic(auto)]

ghost use Rattle.std.specs.Prelude.{◌≡◌, [], ◌∷◌, Float};
ghost use Rattle.road.specs.Road.{matrix_of, estimate_of};
ghost use Rattle.mixing.specs.Mixing.{mixed_estimate, mix_estimates};
ghost use Rattle.imm_road.specs.Road.{bank_of, shares_of};

use road::{Pair, Two};

// The weights of the first and of the second model.
#[derive(Clone, Copy)]
pub struct Shares {
    pub a: f64,
    pub b: f64,
}

// Both models' estimates, and their probabilities.
#[derive(Clone, Copy)]
pub struct Roads {
    pub first: Pair,
    pub second: Pair,
    pub mu0: f64,
    pub mu1: f64,
}

// The weights in a model whose transitions from the first and the second are s and t, and whose predicted probability is c.
fn weights(s: f64, t: f64, mu0: f64, mu1: f64, c: f64) -> Shares
    ensures { (result.a ∷ result.b ∷ []) ≡ shares_of s t mu0 mu1 c }
{
    Shares {
        a: imm_steps::share(mu0, s, c),
        b: imm_steps::share(mu1, t, c),
    }
}

// The estimates e and f mixed by their weights; the probabilities are not read.
fn mixed(e: Pair, f: Pair, w: Shares) -> Pair
    ensures { (m n : Float) → estimate_of result ≡ mixed_estimate 2 2 (bank_of e f m n) (w.a ∷ w.b ∷ []) }
{
    let x0 = 0.0 + e.x0 * w.a + f.x0 * w.b;
    let x1 = 0.0 + e.x1 * w.a + f.x1 * w.b;
    let d0 = e.x0 - x0;
    let d1 = e.x1 - x1;
    let g0 = f.x0 - x0;
    let g1 = f.x1 - x1;
    let p = e.p;
    let q = f.p;
    Pair {
        x0,
        x1,
        p: Two {
            a: 0.0 + (p.a + (0.0 + d0 * d0)) * w.a + (q.a + (0.0 + g0 * g0)) * w.b,
            b: 0.0 + (p.b + (0.0 + d0 * d1)) * w.a + (q.b + (0.0 + g0 * g1)) * w.b,
            c: 0.0 + (p.c + (0.0 + d1 * d0)) * w.a + (q.c + (0.0 + g1 * g0)) * w.b,
            d: 0.0 + (p.d + (0.0 + d1 * d1)) * w.a + (q.d + (0.0 + g1 * g1)) * w.b,
        },
    }
}

impl Roads {
    // Both models mixed by the transition t; the probabilities become the predicted ones.
    pub fn mix(self, t: Two) -> Roads
        ensures { bank_of result.first result.second result.mu0 result.mu1
            ≡ mix_estimates 2 2 (matrix_of t) (bank_of self.first self.second self.mu0 self.mu1) }
    {
        let e = self.first;
        let f = self.second;
        let c0 = 0.0 + self.mu0 * t.a + self.mu1 * t.c;
        let c1 = 0.0 + self.mu0 * t.b + self.mu1 * t.d;
        let v = weights(t.a, t.c, self.mu0, self.mu1, c0);
        let w = weights(t.b, t.d, self.mu0, self.mu1, c1);
        let first = mixed(e, f, v);
        let second = mixed(e, f, w);
        Roads {
            first,
            second,
            mu0: c0,
            mu1: c1,
        }
    }
}
