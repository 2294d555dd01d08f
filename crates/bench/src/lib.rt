// The library's functions by value behind C names, for compare/bench: whole arrays behind pointers, no slices to read
// or to test. What is timed is the function that Rattle code calls; where it refuses, all is +0.
#![tactic(auto)]

ghost use Rattle.std.specs.Prelude.{◌≡◌, []};
ghost use Rattle.std.specs.Result.{result_unwrap_or};
ghost use Rattle.answer.specs.Answer.{where_sized, if_sized, mapped};
ghost use Rattle.algebra.specs.Matrix.{mul};
ghost use Rattle.algebra.specs.Array.{used, pad, pad_row};
ghost use Rattle.sizes.specs.Size.{sized, chained};
ghost use Rattle.matrix.specs.Result.{as_matrix};
ghost use Rattle.algebra.specs.Inverse.{inv};
ghost use Rattle.algebra.specs.Cholesky.{cholesky};
ghost use Rattle.steps.specs.Flat.{motion_from, sensor_from, estimate_from};
ghost use Rattle.kalman.specs.Record.{new_of};
ghost use Rattle.bench.specs.Steps.{steps_of};

use kalman::KalmanFilter;

#[unsafe(no_mangle)]
pub extern "C" fn bench_matmul(
    n: usize,
    a: &[[f64; 4]; 4],
    b: &[[f64; 4]; 4],
    out: &mut [[f64; 4]; 4],
)
    ensures { out.new ≡ result_unwrap_or (as_matrix (where_sized (chained n n n n) (mul n n n (used n n a.now) (used n n b.now)))) (pad []) }
{
    *out = matrix::matmul(*a, n, n, *b, n, n).unwrap_or([[0.0; 4]; 4]);
}

#[unsafe(no_mangle)]
pub extern "C" fn bench_inv(n: usize, a: &[[f64; 4]; 4], out: &mut [[f64; 4]; 4])
    ensures { out.new ≡ result_unwrap_or (as_matrix (if_sized (sized n) (inv n (used n n a.now)))) (pad []) }
{
    *out = inverse::inv(*a, n).unwrap_or([[0.0; 4]; 4]);
}

#[unsafe(no_mangle)]
pub extern "C" fn bench_cholesky(n: usize, a: &[[f64; 4]; 4], out: &mut [[f64; 4]; 4])
    ensures { out.new ≡ result_unwrap_or (as_matrix (if_sized (sized n) (cholesky n (used n n a.now)))) (pad []) }
{
    *out = cholesky::cholesky(*a, n).unwrap_or([[0.0; 4]; 4]);
}

fn steps(
    f: KalmanFilter,
    u: [f64; 4],
    i: usize,
    z: [f64; 4],
    m: usize,
    times: usize,
) -> KalmanFilter
    ensures { result ≡ steps_of times f u i z m }
{
    let mut g = f;
    // A count of steps: nothing has an index.
    for k in 0..times {
        g = g.predict(u, i).left.update(z, m).left;
    }
    g
}

// The state after so many predictions and updates of a filter of n states, m measurements and i inputs.
#[unsafe(no_mangle)]
pub extern "C" fn bench_steps(
    n: usize,
    m: usize,
    i: usize,
    a: &[[f64; 4]; 4],
    b: &[[f64; 4]; 4],
    h: &[[f64; 4]; 4],
    q: &[[f64; 4]; 4],
    r: &[[f64; 4]; 4],
    x: &[f64; 4],
    p: &[[f64; 4]; 4],
    u: &[f64; 4],
    z: &[f64; 4],
    times: usize,
    out: &mut [f64; 4],
)
    ensures { out.new ≡ result_unwrap_or (mapped (λ f. (steps_of times f u.now i z.now m).x)
        (new_of (motion_from n i a.now b.now q.now) (sensor_from n m h.now r.now)
        (estimate_from n x.now p.now))) (pad_row []) }
{
    *out = match KalmanFilter::new(n, m, i, *a, *b, *h, *q, *r, *x, *p) {
        Ok(f) => steps(f, *u, i, *z, m, times).x,
        Err(_) => [0.0; 4],
    };
}
