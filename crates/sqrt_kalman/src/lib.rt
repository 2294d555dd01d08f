// src/estimator/sqrt_kalman.rs at f64: the square-root filter as a record by value, over the steps on lent rows. Each step takes
// the record and hands back its answer and the record that it leaves; what a refusal leaves is the step's.
#![tactic(auto)]

ghost use Rattle.std.specs.Prelude.{◌≡◌};
ghost use Rattle.algebra.specs.Matrix.{at};
ghost use Rattle.algebra.specs.Array.{cut, rows_of_flat, flat_of_rows};
ghost use Rattle.answer.specs.Outcome.{handed};
ghost use Rattle.matrix.specs.Result.{as_vector};
ghost use Rattle.steps.specs.Flat.{motion_from, estimate_from};
ghost use Rattle.sqrt_kalman.specs.Record.{channel_from, factored_from, holding, predicting, updating, resetting, new_of, from_cholesky_of};
ghost use Rattle.sqrt_kalman.specs.Record.{predict_of, update_of, update_one_of, reset_of, state_of, covariance_of, cholesky_factor_of};

use answer::{Refusal, Step};

// Sizes: state n, measurement m, input i. Transition a (n by n), input matrix b (n by i), measurement matrix h (m by n), process
// noise q (n by n), each measurement's deviation r_diag (m), state x, factor s_chol of the covariance (n by n). A matrix
// stands flat, four numbers a row; what stands outside its sizes is ignored.
#[derive(Clone, Copy)]
pub struct SqrtKalman {
    pub n: usize,
    pub m: usize,
    pub i: usize,
    pub a: [f64; 16],
    pub b: [f64; 16],
    pub h: [f64; 16],
    pub q: [f64; 16],
    pub r_diag: [f64; 4],
    pub x: [f64; 4],
    pub s_chol: [f64; 16],
}

// The rows of a factor; laid flat again they are the factor.
#[tactic(auto, using(crate::proofs::Records::flat_again))]
fn factor_rows(s: [f64; 16]) -> [[f64; 4]; 4]
    ensures { (result ≡ rows_of_flat s) × (flat_of_rows result ≡ s) }
{
    kernel::from_flat(&s)
}

// ---- the steps on a record that is lent; a matrix is read as rows, and written back flat

impl SqrtKalman {
    fn predict_in(&mut self, u: &[f64; 4], k: usize) -> Result<(), Refusal>
        ensures { (result, self.new) ≡ handed (λ t. t) (holding self.old) self.old (predicting self.old u.now k) }
    {
        let (n, _, i) = steps::fitted(self.n, self.m, self.i, self.i, k)?;
        let a = kernel::from_flat(&self.a);
        let b = kernel::from_flat(&self.b);
        let q = kernel::from_flat(&self.q);
        let mut s = factor_rows(self.s_chol);
        let answer = sqrt_steps::predict(&a, &b, &q, u, n, i, &mut self.x, &mut s);
        self.s_chol = kernel::to_flat(&s);
        answer
    }

    fn update_in(&mut self, z: &[f64; 4], k: usize) -> Result<[f64; 4], Refusal>
        ensures { (result, self.new)
            ≡ handed as_vector (holding self.old) self.old (updating self.old (cut self.old.m z.now) k) }
    {
        let (n, m, _) = steps::fitted(self.n, self.m, self.i, self.m, k)?;
        let h = kernel::from_flat(&self.h);
        let r = self.r_diag;
        let mut s = factor_rows(self.s_chol);
        let answer = sqrt_steps::update(&h, &r, z, n, m, &mut self.x, &mut s);
        self.s_chol = kernel::to_flat(&s);
        answer
    }

    // The state is set only where p has a factor.
    fn reset_in(&mut self, x: &[f64; 4], p: &[[f64; 4]; 4], k: usize) -> Result<(), Refusal>
        ensures { (result, self.new) ≡ handed (λ t. t) (holding self.old) self.old (resetting self.old x.now p.now k) }
    {
        let (n, _, _) = steps::fitted(self.n, self.m, self.i, self.n, k)?;
        let s = cholesky::factor_of(p, n)?;
        self.x = rows::leading(*x, n);
        self.s_chol = kernel::to_flat(&s);
        Ok(())
    }
}

// ---- the methods by value

impl SqrtKalman {
    // The filter of a model and an estimate, given by the used parts of arrays of rows; the factor is that of p0. Refused as a
    // wrong size: a size; as not positive definite: p0 has no factor.
    pub fn new(
        n: usize,
        m: usize,
        i: usize,
        a: [[f64; 4]; 4],
        b: [[f64; 4]; 4],
        h: [[f64; 4]; 4],
        q: [[f64; 4]; 4],
        r_diag: [f64; 4],
        x0: [f64; 4],
        p0: [[f64; 4]; 4],
    ) -> Result<SqrtKalman, Refusal>
        ensures { result ≡ new_of (motion_from n i a b q) (channel_from n m h r_diag) (estimate_from n x0 p0) }
    {
        let (size, _, _) = steps::sized(n, m, i)?;
        let s0 = cholesky::factor_of(&p0, size)?;
        Self::from_cholesky(n, m, i, a, b, h, q, r_diag, x0, s0)
    }

    // The same, with the factor s0 itself. Refused as a wrong size: a size.
    pub fn from_cholesky(
        n: usize,
        m: usize,
        i: usize,
        a: [[f64; 4]; 4],
        b: [[f64; 4]; 4],
        h: [[f64; 4]; 4],
        q: [[f64; 4]; 4],
        r_diag: [f64; 4],
        x0: [f64; 4],
        s0: [[f64; 4]; 4],
    ) -> Result<SqrtKalman, Refusal>
        ensures { result ≡ from_cholesky_of (motion_from n i a b q) (channel_from n m h r_diag) (factored_from n x0 s0) }
    {
        let (sn, sm, si) = steps::sized(n, m, i)?;
        Ok(SqrtKalman {
            n,
            m,
            i,
            a: kernel::flat_part(&a, sn, sn),
            b: kernel::flat_part(&b, sn, si),
            h: kernel::flat_part(&h, sm, sn),
            q: kernel::flat_part(&q, sn, sn),
            r_diag: rows::leading(r_diag, sm),
            x: rows::leading(x0, sn),
            s_chol: kernel::flat_part(&s0, sn, sn),
        })
    }

    // The state and the factor one step on, with the input u of k numbers. Refused as a wrong size: a size of the record, or k is
    // not i; as not positive definite: the new covariance has no factor; the state is then the new one, and the factor the old.
    pub fn predict(self, u: [f64; 4], k: usize) -> Step<(), SqrtKalman>
        ensures { result ≡ predict_of self u k }
    {
        let mut left = self;
        let answer = left.predict_in(&u, k);
        Step { answer, left }
    }

    // The state and the factor corrected by the measurement z of k numbers, one component after another; the innovations in
    // order. Refused as a wrong size: a size, or k is not m; as singular: a component's variance; the components before it are taken
    // in; as not positive definite: its downdate; the state is then updated by it, and the columns before the failing one are turned.
    pub fn update(self, z: [f64; 4], k: usize) -> Step<[f64; 4], SqrtKalman>
        ensures { result ≡ update_of self z k }
    {
        let mut left = self;
        let answer = left.update_in(&z, k);
        Step { answer, left }
    }

    // The same for one reading, m = 1: the innovation as a number.
    pub fn update_one(self, z: f64) -> Step<f64, SqrtKalman>
        ensures { result ≡ update_one_of self z }
    {
        let Step { answer, left } = self.update([z, 0.0, 0.0, 0.0], 1);
        let first = |y: [f64; 4]| -> f64
            ensures { result ≡ at y 0 }
        { y[0] };
        Step {
            answer: answer.map(first),
            left,
        }
    }

    // The state, of n numbers. Refused as a wrong size: a size of the record.
    pub fn state(self) -> Result<[f64; 4], Refusal>
        ensures { result ≡ state_of self }
    {
        let (n, _, _) = steps::sized(self.n, self.m, self.i)?;
        Ok(rows::leading(self.x, n))
    }

    // The covariance, n by n. Refused as a wrong size: a size of the record.
    pub fn covariance(self) -> Result<[[f64; 4]; 4], Refusal>
        ensures { result ≡ covariance_of self }
    {
        let (n, _, _) = steps::sized(self.n, self.m, self.i)?;
        let s = kernel::from_flat(&self.s_chol);
        Ok(sqrt_steps::covariance(&s, n))
    }

    // The factor, n by n. Refused as a wrong size: a size of the record.
    pub fn cholesky_factor(self) -> Result<[[f64; 4]; 4], Refusal>
        ensures { result ≡ cholesky_factor_of self }
    {
        let (n, _, _) = steps::sized(self.n, self.m, self.i)?;
        let s = kernel::from_flat(&self.s_chol);
        Ok(rows::used_part(&s, n, n))
    }

    // The state x0, and the factor of the covariance p0 of k states. Refused as a wrong size: a size of the record, or k is not n;
    // as not positive definite: p0 has no factor. Either leaves state and factor as they are.
    pub fn reset(self, x0: [f64; 4], p0: [[f64; 4]; 4], k: usize) -> Step<(), SqrtKalman>
        ensures { result ≡ reset_of self x0 p0 k }
    {
        let mut left = self;
        let answer = left.reset_in(&x0, &p0, k);
        Step { answer, left }
    }
}
