// The steps of the square-root filter on rows that the caller lends, with the operations and the order of
// src/estimator/sqrt_kalman.rs: the state x, and the factor l with l × transposed l = the covariance.
#![tactic(auto)]

ghost use Rattle.std.specs.Prelude.{◌≡◌, [], ◌<◌};
ghost use Rattle.answer.specs.Outcome.{handed};
ghost use Rattle.algebra.specs.Array.{pad};
ghost use Rattle.sizes.specs.Size.{count, front, part};
ghost use Rattle.filtering.specs.SquareRoot.{turned_diagonal, rotate as rotate_of, rotated, variance as variance_of, vec_over};
ghost use Rattle.filtering.specs.SquareRoot.{covariance as covariance_of, predict as predict_of, component as component_of, update as update_of};
ghost use Rattle.steps.specs.Step.{motion_rows};
ghost use Rattle.matrix.specs.Result.{as_one, as_vector};
ghost use Rattle.sqrt_steps.specs.Step.{turned_column, turned_vector, with_column, rotated_rows, factored_rows, channel_rows, ended, arrays_of};

use answer::Refusal;
use rows::pick;
use scalar::ControlScalar;
use sizes::Size;

// ---- the downdate of l by v, column by column

// The root of a turned diagonal's square d. Refused as not positive definite: at or below zero; a NaN passes.
#[tactic(auto, unfolding(filtering::specs::SquareRoot::turned_diagonal))]
pub fn turned_diagonal(d: f64) -> Result<f64, Refusal>
    ensures { result ≡ turned_diagonal d }
{
    if d <= 0.0 {
        Err(Refusal::NotPositiveDefinite)
    } else {
        Ok(ControlScalar::sqrt(d))
    }
}

// Column k turned with v: d on its diagonal, and the cells below it. Written out by choices, so that a compiler makes no jump.
#[tactic(auto, unfolding(crate::specs::Step::turned_column))]
fn turned_column(column: [f64; 4], v: [f64; 4], k: usize, d: f64, c: f64, s: f64) -> [f64; 4]
    ensures { result ≡ turned_column k d c s column v }
{
    let r0 = pick(k == 0, d, column[0]);
    let r1 = pick(
        k < 1,
        (column[1] - s * v[1]) / c,
        pick(k == 1, d, column[1]),
    );
    let r2 = pick(
        k < 2,
        (column[2] - s * v[2]) / c,
        pick(k == 2, d, column[2]),
    );
    let r3 = pick(
        k < 3,
        (column[3] - s * v[3]) / c,
        pick(k == 3, d, column[3]),
    );
    [r0, r1, r2, r3]
}

// v turned with column k as it was.
#[tactic(auto, unfolding(crate::specs::Step::turned_vector))]
fn turned_vector(column: [f64; 4], v: [f64; 4], k: usize, c: f64, s: f64) -> [f64; 4]
    ensures { result ≡ turned_vector k c s column v }
{
    let r1 = pick(k < 1, c * v[1] - s * column[1], v[1]);
    let r2 = pick(k < 2, c * v[2] - s * column[2], v[2]);
    let r3 = pick(k < 3, c * v[3] - s * column[3], v[3]);
    [v[0], r1, r2, r3]
}

// l with another column k.
#[tactic(auto, unfolding(crate::specs::Step::with_column))]
fn with_column(l: &[[f64; 4]; 4], k: usize, column: [f64; 4]) -> [[f64; 4]; 4]
    ensures { result ≡ with_column k column l.now }
{
    let r0 = rows::row_with(l[0], k, column[0]);
    let r1 = rows::row_with(l[1], k, column[1]);
    let r2 = rows::row_with(l[2], k, column[2]);
    let r3 = rows::row_with(l[3], k, column[3]);
    [r0, r1, r2, r3]
}

// Column k of the n × n part of l, turned with v. Refused as not positive definite: the diagonal.
#[tactic(auto, using(crate::proofs::Columns::at_most_four, crate::proofs::Columns::when_refused))]
fn rotate(l: &mut [[f64; 4]; 4], v: &mut [f64; 4], k: usize, n: Size) -> Result<(), Refusal>
    requires { k < count n }
    ensures { (result, (l.new, v.new))
        ≡ rotated_rows l.old v.old (rotate_of (count n) k (part n n l.old) (front n v.old)) }
{
    let diagonal = l[k][k];
    let vk = v[k];
    let d = turned_diagonal(diagonal * diagonal - vk * vk)?;
    let c = d / diagonal;
    let s = vk / diagonal;
    let column = [l[0][k], l[1][k], l[2][k], l[3][k]];
    let turned = with_column(l, k, turned_column(column, *v, k, d, c, s));
    *l = rows::used_part(&turned, n, n);
    *v = rows::leading(turned_vector(column, *v, k, c, s), n);
    Ok(())
}

// All columns. Refused as not positive definite: a column's diagonal; the columns before it are turned.
#[tactic(auto, using(crate::proofs::Downdates::turns))]
pub fn downdate(l: &mut [[f64; 4]; 4], v: [f64; 4], n: Size) -> Result<(), Refusal>
    ensures { (result, l.new) ≡ handed ended pad l.old (rotated (count n) (count n) (part n n l.old) (front n v)) }
{
    let columns = usize::from(n);
    let mut w = v;
    // The index is a column of l and a place in w, which the columns before have turned.
    for k in 0..columns {
        rotate(l, &mut w, k, n)?;
    }
    Ok(())
}

// ---- one component of a measurement

// A variance. Refused as singular: at or below zero; a NaN passes.
#[tactic(auto, unfolding(filtering::specs::SquareRoot::variance))]
pub fn variance(s: f64) -> Result<f64, Refusal>
    ensures { result ≡ variance_of s }
{
    if s <= 0.0 {
        Err(Refusal::SingularMatrix)
    } else {
        Ok(s)
    }
}

// v / s
#[tactic(auto, unfolding(filtering::specs::SquareRoot::vec_over))]
fn over(v: [f64; 4], s: f64) -> [f64; 4]
    ensures { result ≡ vec_over 4 v s }
{
    [v[0] / s, v[1] / s, v[2] / s, v[3] / s]
}

// x and l corrected by the measurement z of one component, whose row of H is h and whose deviation is r; the innovation is z less
// h times the state before. Refused as singular: the variance, and nothing changes; as not positive definite: a column of the
// downdate. The state is then the new one, and the columns before it are turned.
pub fn component<'a>(
    h: &'a [f64; 4],
    r: f64,
    z: f64,
    n: Size,
    x: &mut [f64; 4],
    l: &mut [[f64; 4]; 4],
) -> Result<f64, Refusal>
    ensures { (result, (x.new, l.new))
        ≡ handed as_one arrays_of (x.old, l.old)
        (component_of (count n) (front n h.now) r z (factored_rows n x.old l.old) []) }
{
    let k = usize::from(n);
    let y = z - kernel::dot(h, x, k);
    let t = rows::row_product(*h, l, n);
    let tt = kernel::dot(&t, &t, k);
    let s = variance(tt + r * r)?;
    let g = kernel::product_vector(l, &t, n, n);
    *x = kernel::vector_sum(*x, rows::row_scaled(over(g, s), y), n);
    let turned = downdate(l, over(g, ControlScalar::sqrt(s)), n);
    *l = rows::used_part(l, n, n);
    turned?;
    Ok(y)
}

// ---- the filter

// l × transposed l
pub fn covariance(l: &[[f64; 4]; 4], n: Size) -> [[f64; 4]; 4]
    ensures { result ≡ pad (covariance_of (count n) (factored_rows n [] l.now)) }
{
    let r0 = rows::row_product_transposed(l[0], l, n);
    let r1 = rows::row_product_transposed(l[1], l, n);
    let r2 = rows::row_product_transposed(l[2], l, n);
    let r3 = rows::row_product_transposed(l[3], l, n);
    rows::leading_rows(r0, r1, r2, r3, n, n)
}

// x and l one step on, with the input u. Refused as not positive definite: the new covariance has no factor; x is then the new
// state, and l the old factor.
#[tactic(auto, using(crate::proofs::Predictions::unfactored), unfolding(filtering::specs::Filter::predicted_state))]
pub fn predict<'a>(
    a: &'a [[f64; 4]; 4],
    b: &'a [[f64; 4]; 4],
    q: &'a [[f64; 4]; 4],
    u: &'a [f64; 4],
    n: Size,
    i: Size,
    x: &mut [f64; 4],
    l: &mut [[f64; 4]; 4],
) -> Result<(), Refusal>
    ensures { (result, (x.new, l.new))
        ≡ handed (λ t. t) arrays_of (x.old, l.old)
        (predict_of (motion_rows n i a.now b.now q.now) (front i u.now)
        (factored_rows n x.old l.old)) }
{
    let p = covariance(l, n);
    *x = steps::predicted_state(a, b, x, u, n, i);
    let s = steps::propagated(a, &p, q, n, n);
    match cholesky::factor_of(&s, n) {
        Ok(f) => {
            *l = f;
            Ok(())
        }
        Err(refusal) => {
            *l = rows::used_part(l, n, n);
            Err(refusal)
        }
    }
}

// x and l corrected by the measurement z, one component after another; the innovations in order. Refused as its first refused
// component is; x and l are as that component leaves them.
#[tactic(auto, using(crate::proofs::Updates::taking_none, crate::proofs::Updates::taking_more))]
pub fn update<'a>(
    h: &'a [[f64; 4]; 4],
    r: &'a [f64; 4],
    z: &'a [f64; 4],
    n: Size,
    m: Size,
    x: &mut [f64; 4],
    l: &mut [[f64; 4]; 4],
) -> Result<[f64; 4], Refusal>
    ensures { (result, (x.new, l.new))
        ≡ handed as_vector arrays_of (x.old, l.old)
        (update_of (channel_rows n m h.now r.now) (front m z.now) (factored_rows n x.old l.old)) }
{
    let components = usize::from(m);
    let mut y = [0.0; 4];
    // The index goes into h, r, z and y.
    for i in 0..components {
        let e = component(&h[i], r[i], z[i], n, x, l)?;
        y[i] = e;
    }
    Ok(y)
}
