// The parts of mixing on rows that the caller lends, with the operations and the order of src/estimator/imm.rs. A bank of k
// models of n states is its states x, a row for each model, and its covariances p, four rows for each. Sizes are 1 to 4 by
// their type, so nothing is tested; numbers and models outside them are ignored on entry and +0 in what is left.
#![tactic(auto)]

ghost use Rattle.std.specs.Prelude.{◌≡◌, [], ◌<◌};
ghost use Rattle.scalar.specs.Number.{◌⊕◌, ◌⊖◌, ◌⊗◌, +0};
ghost use Rattle.answer.specs.Table.{table};
ghost use Rattle.algebra.specs.Matrix.{at, cell, sum_of};
ghost use Rattle.algebra.specs.Array.{pad_row, pad};
ghost use Rattle.sizes.specs.Size.{count, front, part};
ghost use Rattle.rows.specs.Row.{row_times};
ghost use Rattle.mixing.specs.Mixing.{uniform as uniform_of, predicted as predicted_of, weighted as weighted_of, mixed_covariance};
ghost use Rattle.mixing.specs.Mixing.{update_probabilities};
ghost use Rattle.imm_steps.specs.Bank.{bank_rows, mixed_rows, share_of, Shares, States};

use rows::pick;
use scalar::ControlScalar;
use sizes::Size;

// ---- probabilities

// 1 / k each.
pub fn uniform(k: Size) -> [f64; 4]
    ensures { result ≡ pad_row (uniform_of (count k)) }
{
    let models = usize::from(k) as u8;
    let share = 1.0 / (models as f64);
    rows::leading([share; 4], k)
}

// Each model's predicted probability.
pub fn predicted(t: &[[f64; 4]; 4], mu: [f64; 4], k: Size) -> [f64; 4]
    ensures { result ≡ pad_row (predicted_of (count k) (part k k t.now) (front k mu)) }
{
    rows::leading(rows::row_product(mu, t, k), k)
}

// The weight of a model of the probability m, which goes over with t, in one of the predicted probability c.
pub fn share(m: f64, t: f64, c: f64) -> f64
    ensures { result ≡ share_of m t c }
{
    let likely = c > ControlScalar::EPSILON;
    pick(likely, m * t / c, 0.0)
}

// The weights of one model in all k. Written out: a division takes long, and a compiler makes two at once.
fn shares(t: [f64; 4], m: f64, c: [f64; 4], k: Size) -> [f64; 4]
    ensures { front k result ≡ table (count k) (λ j. share_of m (at t j) (at c j)) }
{
    let a = share(m, t[0], c[0]);
    let b = share(m, t[1], c[1]);
    if usize::from(k) < 3 {
        return [a, b, 0.0, 0.0];
    }
    let d = share(m, t[2], c[2]);
    let e = share(m, t[3], c[3]);
    [a, b, d, e]
}

// The weights of each model, a row for each. Written out, as rows::leading_rows is: a compiler makes compares of `<`.
pub fn all_shares(t: &[[f64; 4]; 4], mu: [f64; 4], c: [f64; 4], k: Size) -> [[f64; 4]; 4]
    ensures { Shares k t.now mu c result }
{
    let none = [0.0; 4];
    let n = usize::from(k);
    let w0 = shares(t[0], mu[0], c, k);
    if n < 2 {
        return [w0, none, none, none];
    }
    let w1 = shares(t[1], mu[1], c, k);
    if n < 3 {
        return [w0, w1, none, none];
    }
    let w2 = shares(t[2], mu[2], c, k);
    if n < 4 {
        return [w0, w1, w2, none];
    }
    let w3 = shares(t[3], mu[3], c, k);
    [w0, w1, w2, w3]
}

// ---- estimates

// The models' states, each times its weight of w, summed.
pub fn weighted(x: &[[f64; 4]; 4], w: [f64; 4], n: Size, k: Size) -> [f64; 4]
    ensures { result ≡ pad_row (weighted_of (count n) (count k) (bank_rows n k x.now [] [] []) (front k w)) }
{
    rows::leading(rows::row_product(w, x, k), n)
}

// s and a row p of a covariance with its spread, times w: x is the state, m the mixed state, and y the deviation of the row.
pub fn plus_spread(s: [f64; 4], p: [f64; 4], x: [f64; 4], m: [f64; 4], y: f64, w: f64) -> [f64; 4]
    ensures { result ≡ table 4 (λ c. at s c ⊕ (at p c ⊕ (+0 ⊕ y ⊗ (at x c ⊖ at m c))) ⊗ w) }
{
    [
        s[0] + (p[0] + (0.0 + y * (x[0] - m[0]))) * w,
        s[1] + (p[1] + (0.0 + y * (x[1] - m[1]))) * w,
        s[2] + (p[2] + (0.0 + y * (x[2] - m[2]))) * w,
        s[3] + (p[3] + (0.0 + y * (x[3] - m[3]))) * w,
    ]
}

// A row of a mixed covariance, of each model's row p and state x: y are their deviations from the mixed state m in that row.
pub fn mixed_row<'a>(
    p: &'a [[f64; 4]; 4],
    x: &'a [[f64; 4]; 4],
    m: [f64; 4],
    y: [f64; 4],
    w: [f64; 4],
    k: Size,
) -> [f64; 4]
    ensures { result ≡ table 4 (λ c. sum_of (count k) (λ i. (cell p.now i c ⊕ (+0 ⊕ at y i ⊗ (cell x.now i c ⊖ at m c))) ⊗ at w i)) }
{
    let models = usize::from(k);
    let mut s = [0.0; 4];
    // The index is a model: a row of p and of x, and a number of y and of w.
    for i in 0..models {
        let next = plus_spread(s, p[i], x[i], m, y[i], w[i]);
        s = next;
    }
    s
}

// The models' spreads around the mixed state m, each times its weight of w, summed.
fn mixed_covariance<'a>(
    x: &'a [[f64; 4]; 4],
    p: &'a [[[f64; 4]; 4]; 4],
    w: [f64; 4],
    m: [f64; 4],
    n: Size,
    k: Size,
) -> [[f64; 4]; 4]
    ensures { result ≡ pad (mixed_covariance (count n) (count k) (bank_rows n k x.now p.now [] []) (front k w) (front n m)) }
{
    let rows = usize::from(n);
    let mut out = [[0.0; 4]; 4];
    // The index is a row of every covariance and of the result, and a number of every state and of m.
    for r in 0..rows {
        let of = [p[0][r], p[1][r], p[2][r], p[3][r]];
        let y = [
            x[0][r] - m[r],
            x[1][r] - m[r],
            x[2][r] - m[r],
            x[3][r] - m[r],
        ];
        out[r] = rows::leading(mixed_row(&of, x, m, y, w, k), n);
    }
    out
}

// The state of model j mixed from the states x by the weights w, in all four numbers.
fn mixed_state<'a>(x: &'a [[f64; 4]; 4], w: &'a [[f64; 4]; 4], j: usize, k: Size) -> [f64; 4]
    requires { j < 4 }
    ensures { result ≡ row_times (count k) (table 4 (λ i. cell w.now i j)) x.now }
{
    rows::row_product([w[0][j], w[1][j], w[2][j], w[3][j]], x, k)
}

// The mixed states, a row for each model. Written out likewise.
pub fn mixed_states<'a>(x: &'a [[f64; 4]; 4], w: &'a [[f64; 4]; 4], k: Size) -> [[f64; 4]; 4]
    ensures { States k x.now w.now result }
{
    let none = [0.0; 4];
    let n = usize::from(k);
    let m0 = mixed_state(x, w, 0, k);
    if n < 2 {
        return [m0, none, none, none];
    }
    let m1 = mixed_state(x, w, 1, k);
    if n < 3 {
        return [m0, m1, none, none];
    }
    let m2 = mixed_state(x, w, 2, k);
    if n < 4 {
        return [m0, m1, m2, none];
    }
    let m3 = mixed_state(x, w, 3, k);
    [m0, m1, m2, m3]
}

// ---- the steps

// Every model's estimate mixed from all, by the transition t; mu becomes the predicted probabilities. The parts of a bank are lent one
// by one, as its holder has them: a struct of them would be made for this call alone.
pub fn mix(
    t: &[[f64; 4]; 4],
    n: Size,
    k: Size,
    x: &mut [[f64; 4]; 4],
    p: &mut [[[f64; 4]; 4]; 4],
    mu: &mut [f64; 4],
)
    ensures { (x.new, (p.new, mu.new)) ≡ mixed_rows n k t.now x.old p.old mu.old }
{
    let c = predicted(t, *mu, k);
    let w = all_shares(t, *mu, c, k);
    let models = usize::from(k);
    let mut xs = [[0.0; 4]; 4];
    let mut ps = [[[0.0; 4]; 4]; 4];
    // The index is a column of w, and a place in both results.
    for j in 0..models {
        let v = [w[0][j], w[1][j], w[2][j], w[3][j]];
        let m = weighted(x, v, n, k);
        xs[j] = m;
        ps[j] = mixed_covariance(x, p, v, m, n, k);
    }
    *x = xs;
    *p = ps;
    *mu = c;
}

// Each probability times its likelihood, as a part of their sum; all alike where the sum is below EPSILON.
pub fn update_probabilities(l: [f64; 4], k: Size, mu: &mut [f64; 4])
    ensures { mu.new ≡ pad_row (update_probabilities (count k) (bank_rows k k [] [] l mu.old)).probabilities }
{
    let v = *mu;
    let s = kernel::dot(&v, &l, usize::from(k));
    if s < ControlScalar::EPSILON {
        *mu = uniform(k);
        return;
    }
    let parts = [
        v[0] * l[0] / s,
        v[1] * l[1] / s,
        v[2] * l[2] / s,
        v[3] * l[3] / s,
    ];
    *mu = rows::leading(parts, k);
}
