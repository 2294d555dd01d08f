// The steps of the information filter on rows that the caller lends, with the operations and the order of
// src/estimator/information_filter.rs: omega is the inverted covariance, and xi is omega times the state. The parts that every
// filter has are those of `steps`. A size is 1 to 4 by its type, so nothing is tested or asked for.
#![tactic(auto)]

ghost use Rattle.std.specs.Prelude.{◌≡◌, []};
ghost use Rattle.answer.specs.Outcome.{into, handed};
ghost use Rattle.algebra.specs.Array.{pad_row, pad};
ghost use Rattle.sizes.specs.Size.{count, front, part};
ghost use Rattle.matrix.specs.Result.{as_vector};
ghost use Rattle.filtering.specs.Information.{informed, of_estimate, state as state_of, predict as predict_of};
ghost use Rattle.steps.specs.Step.{motion_rows, sensor_rows, estimate_rows};
ghost use Rattle.information_steps.specs.Step.{information_rows, arrays_of, update_by};

use answer::Refusal;
use sizes::Size;

// ---- what is measured is added, for an H of m rows and n columns and the inverted noise W

// Omega + (Hᵀ W) H, for all sizes. Compiled into its caller: where the sizes are literals, a compiler leaves out their tests.
#[inline(always)]
fn informed_rows<'a>(
    omega: &'a [[f64; 4]; 4],
    h: &'a [[f64; 4]; 4],
    w: &'a [[f64; 4]; 4],
    n: Size,
    m: Size,
) -> [[f64; 4]; 4]
    ensures { result
        ≡ pad (informed (count n) (count m) (part m n h.now) (part m m w.now) [] (information_rows n omega.now [])
        ).matrix }
{
    let ht = rows::transposed(h, m, n);
    let mut out = [[0.0; 4]; 4];
    // The index is a row of the transposed H, of omega and of the result.
    for i in 0..usize::from(n) {
        let htw = rows::row_product(ht[i], w, m);
        let htwh = rows::row_product(htw, h, m);
        out[i] = rows::leading(rows::row_sum(omega[i], htwh), n);
    }
    out
}

// Omega + (Hᵀ W) H
pub fn informed_matrix<'a>(
    omega: &'a [[f64; 4]; 4],
    h: &'a [[f64; 4]; 4],
    w: &'a [[f64; 4]; 4],
    n: Size,
    m: Size,
) -> [[f64; 4]; 4]
    ensures { result
        ≡ pad (informed (count n) (count m) (part m n h.now) (part m m w.now) [] (information_rows n omega.now [])
        ).matrix }
{
    if let (Size::Four, Size::Two) = (n, m) {
        informed_rows(omega, h, w, Size::Four, Size::Two)
    } else {
        informed_rows(omega, h, w, n, m)
    }
}

// Xi + Hᵀ (W z)
pub fn informed_vector<'a>(
    xi: &'a [f64; 4],
    h: &'a [[f64; 4]; 4],
    w: &'a [[f64; 4]; 4],
    z: &'a [f64; 4],
    n: Size,
    m: Size,
) -> [f64; 4]
    ensures { result
        ≡ pad_row (informed (count n) (count m) (part m n h.now) (part m m w.now) (front m z.now)
        (information_rows n [] xi.now)).vector }
{
    let wz = kernel::product_vector(w, z, m, m);
    let ht = rows::transposed(h, m, n);
    let htwz = kernel::product_vector(&ht, &wz, n, m);
    kernel::vector_sum(*xi, htwz, n)
}

// One sensor's addition: h, its inverted noise w, and what it measured, z.
#[tactic(auto, unfolding(filtering::specs::Information::informed))]
pub fn inform<'a>(
    h: &'a [[f64; 4]; 4],
    w: &'a [[f64; 4]; 4],
    z: &'a [f64; 4],
    n: Size,
    m: Size,
    omega: &mut [[f64; 4]; 4],
    xi: &mut [f64; 4],
)
    ensures { (omega.new, xi.new)
        ≡ arrays_of (informed (count n) (count m) (part m n h.now) (part m m w.now) (front m z.now)
        (information_rows n omega.old xi.old)) }
{
    *omega = informed_matrix(omega, h, w, n, m);
    *xi = informed_vector(xi, h, w, z, n, m);
}

// ---- from an estimate, and back

// Of the state x and its covariance p: omega is p inverted, and xi is omega times x. Refused as singular: inversion rejects p.
pub fn of_estimate<'a>(
    x: &'a [f64; 4],
    p: &'a [[f64; 4]; 4],
    n: Size,
    omega: &mut [[f64; 4]; 4],
    xi: &mut [f64; 4],
) -> Result<(), Refusal>
    ensures { (result, (omega.new, xi.new))
        ≡ handed (λ t. t) arrays_of (omega.old, xi.old)
        (into (of_estimate (count n) (estimate_rows n x.now p.now))) }
{
    let w = inverse::inverse_of(p, n)?;
    *xi = kernel::product_vector(&w, x, n, n);
    *omega = w;
    Ok(())
}

// The state: omega inverted, times xi. Refused as singular: inversion rejects omega.
pub fn state<'a>(omega: &'a [[f64; 4]; 4], xi: &'a [f64; 4], n: Size) -> Result<[f64; 4], Refusal>
    ensures { result ≡ as_vector (state_of (count n) (information_rows n omega.now xi.now)) }
{
    let p = inverse::inverse_of(omega, n)?;
    Ok(kernel::product_vector(&p, xi, n, n))
}

// ---- the steps

// Omega and xi one step on, with the input u. Refused as singular, and nothing changes: inversion rejects omega, or the predicted
// covariance.
pub fn predict<'a>(
    a: &'a [[f64; 4]; 4],
    b: &'a [[f64; 4]; 4],
    q: &'a [[f64; 4]; 4],
    u: &'a [f64; 4],
    n: Size,
    i: Size,
    omega: &mut [[f64; 4]; 4],
    xi: &mut [f64; 4],
) -> Result<(), Refusal>
    ensures { (result, (omega.new, xi.new))
        ≡ handed (λ t. t) arrays_of (omega.old, xi.old)
        (predict_of (motion_rows n i a.now b.now q.now) (front i u.now)
        (information_rows n omega.old xi.old)) }
{
    let p = inverse::inverse_of(omega, n)?;
    let x = kernel::product_vector(&p, xi, n, n);
    let moved = steps::predicted_state(a, b, &x, u, n, i);
    let spread = steps::propagated(a, &p, q, n, n);
    of_estimate(&moved, &spread, n, omega, xi)
}

// Updated by the measurement z, where w is the inverted noise: the addition stays whatever is told. The innovation is z less H
// times the state after the addition. Refused as singular: inversion rejects the omega that the addition made.
pub fn update_by<'a>(
    h: &'a [[f64; 4]; 4],
    w: &'a [[f64; 4]; 4],
    z: &'a [f64; 4],
    n: Size,
    m: Size,
    omega: &mut [[f64; 4]; 4],
    xi: &mut [f64; 4],
) -> Result<[f64; 4], Refusal>
    ensures { (result, (omega.new, xi.new))
        ≡ handed as_vector arrays_of (omega.old, xi.old)
        (update_by (sensor_rows n m h.now []) (front m z.now) (information_rows n omega.old xi.old)
        (part m m w.now)) }
{
    inform(h, w, z, n, m, omega, xi);
    let x = state(omega, xi, n)?;
    Ok(steps::innovation(h, &x, z, m, n))
}
