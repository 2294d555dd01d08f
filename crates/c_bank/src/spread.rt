// A row of a covariance, mixed from the rows of all models: each with its spread, times its weight.
ghost use Rattle.std.specs.Prelude.{◌≡◌, ◌<◌};
ghost use Rattle.scalar.specs.Number.{◌⊕◌, +0};
ghost use Rattle.answer.specs.Table.{table};
ghost use Rattle.algebra.specs.Matrix.{at, cell, sum_of};
ghost use Rattle.sizes.specs.Size.{count};
ghost use Rattle.imm_steps.specs.Bank.{spread_term};

use imm_steps::plus_spread;
use sizes::Size;

// What the covariances are mixed by: the models' states x, their mixed states m, and the weights w of each in each.
#[derive(Clone, Copy)]
pub(crate) struct Mixing<'a> {
    pub(crate) x: &'a [[f64; 4]; 4],
    pub(crate) m: &'a [[f64; 4]; 4],
    pub(crate) w: &'a [[f64; 4]; 4],
}

// Row r of the covariance of model j, mixed from the rows p of all models.
pub(crate) fn mixed_row<'a>(
    p: &[[f64; 4]; 4],
    by: Mixing<'a>,
    j: usize,
    r: usize,
    k: Size,
) -> [f64; 4]
    requires { (j < 4) × (r < 4) }
    ensures { result ≡ table 4 (λ c. sum_of (count k) (λ i. spread_term (cell p.now i c)
        (cell by.entry.x.now i r) (cell by.entry.m.now j r) (cell by.entry.x.now i c) (cell by.entry.m.now j c) (cell by.entry.w.now i j))) }
{
    let x = by.x;
    let m = by.m;
    let w = by.w;
    let models = usize::from(k);
    let mut s = [0.0; 4];
    // The index is a model: a row of p, of x and of w. By imm_steps::mixed_row the deviations and the weights of all four models would
    // be made first, and mixing of four models would take 1.7 times as long.
    for i in 0..models {
        let next = plus_spread(s, p[i], x[i], m[j], x[i][r] - m[j][r], w[i][j]);
        s = next;
    }
    s
}

// Row r of the covariance of model j of two, mixed from their rows a and b.
pub(crate) fn mixed_pair<'a>(
    a: [f64; 4],
    b: [f64; 4],
    by: Mixing<'a>,
    j: usize,
    r: usize,
) -> [f64; 4]
    requires { (j < 4) × (r < 4) }
    ensures { result ≡ table 4 (λ c. +0
        ⊕ spread_term (at a c) (cell by.entry.x.now 0 r) (cell by.entry.m.now j r)
        (cell by.entry.x.now 0 c) (cell by.entry.m.now j c) (cell by.entry.w.now 0 j)
        ⊕ spread_term (at b c) (cell by.entry.x.now 1 r) (cell by.entry.m.now j r)
        (cell by.entry.x.now 1 c) (cell by.entry.m.now j c) (cell by.entry.w.now 1 j)) }
{
    let x = by.x;
    let w = by.w;
    let m = by.m[j];
    let y = m[r];
    let s = plus_spread([0.0; 4], a, x[0], m, x[0][r] - y, w[0][j]);
    plus_spread(s, b, x[1], m, x[1][r] - y, w[1][j])
}
