// src/estimator/information_filter.rs at f64: the information filter as a record by value, over the steps on lent rows. Each step
// takes the record and hands back its answer and the record that it leaves; the one refusal that changes it is an update's on
// the matrix that the addition made.
#![tactic(auto)]

ghost use Rattle.std.specs.Prelude.{◌≡◌};
ghost use Rattle.algebra.specs.Matrix.{at};
ghost use Rattle.algebra.specs.Array.{cut};
ghost use Rattle.matrix.specs.Result.{as_matrix, as_vector};
ghost use Rattle.answer.specs.Outcome.{handed};
ghost use Rattle.steps.specs.Flat.{motion_from, sensor_from, estimate_from};
ghost use Rattle.information_filter.specs.Record.{information_from, holding, predicting, updating, fusing, resetting};
ghost use Rattle.information_filter.specs.Record.{stepped, update_of, update_one_of, new_of, from_information_of};
ghost use Rattle.information_filter.specs.Record.{state_of, covariance_of, matrix_of, vector_of};

use answer::{Refusal, Step};

// Sizes: state n, measurement m, input i. Transition a (n by n), input matrix b (n by i), measurement matrix h (m by n), process
// noise q (n by n), measurement noise r (m by m), information matrix omega (n by n), information vector xi. A matrix stands
// flat, four numbers a row; what stands outside its sizes is ignored.
#[derive(Clone, Copy)]
pub struct InformationFilter {
    pub n: usize,
    pub m: usize,
    pub i: usize,
    pub a: [f64; 16],
    pub b: [f64; 16],
    pub h: [f64; 16],
    pub q: [f64; 16],
    pub r: [f64; 16],
    pub omega: [f64; 16],
    pub xi: [f64; 4],
}

// A sensor of a fusion: h (m by n), its inverted noise r_inv (m by m), both flat, and what it measured, z (m).
#[derive(Clone, Copy)]
pub struct Sensor {
    pub n: usize,
    pub m: usize,
    pub h: [f64; 16],
    pub r_inv: [f64; 16],
    pub z: [f64; 4],
}

// ---- the steps on a record that is lent; a matrix is read as rows, and written back flat

impl InformationFilter {
    fn predict_in(&mut self, u: &[f64; 4], k: usize) -> Result<(), Refusal>
        ensures { (result, self.new) ≡ handed (λ t. t) (holding self.old) self.old (predicting self.old u.now k) }
    {
        let (n, _, i) = steps::fitted(self.n, self.m, self.i, self.i, k)?;
        let a = kernel::from_flat(&self.a);
        let b = kernel::from_flat(&self.b);
        let q = kernel::from_flat(&self.q);
        let mut omega = kernel::from_flat(&self.omega);
        information_steps::predict(&a, &b, &q, u, n, i, &mut omega, &mut self.xi)?;
        self.omega = kernel::to_flat(&omega);
        Ok(())
    }

    // R is inverted first: refused with it, nothing is written; after that the addition stays, whatever is told.
    fn update_in(&mut self, z: &[f64; 4], k: usize) -> Result<[f64; 4], Refusal>
        ensures { (result, self.new)
            ≡ handed as_vector (holding self.old) self.old (updating self.old (cut self.old.m z.now) k) }
    {
        let (n, m, _) = steps::fitted(self.n, self.m, self.i, self.m, k)?;
        let r = kernel::from_flat(&self.r);
        let w = inverse::inverse_of(&r, m)?;
        let h = kernel::from_flat(&self.h);
        let mut omega = kernel::from_flat(&self.omega);
        let answer = information_steps::update_by(&h, &w, z, n, m, &mut omega, &mut self.xi);
        self.omega = kernel::to_flat(&omega);
        answer
    }

    #[tactic(auto, unfolding(crate::specs::Record::fusible))]
    fn fuse_in(&mut self, s: &Sensor) -> Result<(), Refusal>
        ensures { (result, self.new) ≡ handed (λ t. t) (holding self.old) self.old (fusing self.old s.now) }
    {
        let (n, m, _) = steps::fitted(self.n, self.m, self.i, self.n, s.n)?;
        sizes::fits(self.m == s.m)?;
        let h = kernel::from_flat(&s.h);
        let w = kernel::from_flat(&s.r_inv);
        let mut omega = kernel::from_flat(&self.omega);
        information_steps::inform(&h, &w, &s.z, n, m, &mut omega, &mut self.xi);
        self.omega = kernel::to_flat(&omega);
        Ok(())
    }

    fn reset_in(&mut self, x: &[f64; 4], p: &[[f64; 4]; 4], k: usize) -> Result<(), Refusal>
        ensures { (result, self.new) ≡ handed (λ t. t) (holding self.old) self.old (resetting self.old x.now p.now k) }
    {
        let (n, _, _) = steps::fitted(self.n, self.m, self.i, self.n, k)?;
        let mut omega = kernel::from_flat(&self.omega);
        information_steps::of_estimate(x, p, n, &mut omega, &mut self.xi)?;
        self.omega = kernel::to_flat(&omega);
        Ok(())
    }
}

// ---- the methods by value

impl InformationFilter {
    // One step on, with the input u of k numbers. Refused as a wrong size: a size of the record, or k is not i; as singular:
    // inversion rejects omega, or the predicted covariance.
    pub fn predict(self, u: [f64; 4], k: usize) -> Step<(), InformationFilter>
        ensures { result ≡ stepped self (predicting self u k) }
    {
        let mut left = self;
        let answer = left.predict_in(&u, k);
        Step { answer, left }
    }

    // Updated by the measurement z of k numbers; the innovation is z less H times the state after. Refused as a wrong size: a
    // size, or k is not m; as singular: inversion rejects r, and nothing changes, or the new omega, and the addition stays.
    pub fn update(self, z: [f64; 4], k: usize) -> Step<[f64; 4], InformationFilter>
        ensures { result ≡ update_of self z k }
    {
        let mut left = self;
        let answer = left.update_in(&z, k);
        Step { answer, left }
    }

    // The same for one reading, m = 1: the innovation as a number.
    pub fn update_one(self, z: f64) -> Step<f64, InformationFilter>
        ensures { result ≡ update_one_of self z }
    {
        let Step { answer, left } = self.update([z, 0.0, 0.0, 0.0], 1);
        let first = |y: [f64; 4]| -> f64
            ensures { result ≡ at y 0 }
        { y[0] };
        Step {
            answer: answer.map(first),
            left,
        }
    }

    // One sensor's addition. Refused as a wrong size: a size of the record, or the sensor's sizes are not the filter's.
    pub fn fuse_sensor(self, s: Sensor) -> Step<(), InformationFilter>
        ensures { result ≡ stepped self (fusing self s) }
    {
        let mut left = self;
        let answer = left.fuse_in(&s);
        Step { answer, left }
    }

    // The state, of n numbers. Refused as a wrong size: a size of the record; as singular: inversion rejects omega.
    pub fn state(self) -> Result<[f64; 4], Refusal>
        ensures { result ≡ state_of self }
    {
        let (n, _, _) = steps::sized(self.n, self.m, self.i)?;
        let omega = kernel::from_flat(&self.omega);
        information_steps::state(&omega, &self.xi, n)
    }

    // The covariance, n by n: omega inverted. Refused as the state.
    pub fn covariance(self) -> Result<[[f64; 4]; 4], Refusal>
        ensures { result ≡ covariance_of self }
    {
        let (n, _, _) = steps::sized(self.n, self.m, self.i)?;
        let omega = kernel::from_flat(&self.omega);
        inverse::inverse_of(&omega, n)
    }

    // Omega, n by n. Refused as a wrong size: a size of the record.
    pub fn information_matrix(self) -> Result<[[f64; 4]; 4], Refusal>
        ensures { result ≡ matrix_of self }
    {
        let (n, _, _) = steps::sized(self.n, self.m, self.i)?;
        let omega = kernel::from_flat(&self.omega);
        Ok(rows::used_part(&omega, n, n))
    }

    // Xi, n numbers. Refused as a wrong size: a size of the record.
    pub fn information_vector(self) -> Result<[f64; 4], Refusal>
        ensures { result ≡ vector_of self }
    {
        let (n, _, _) = steps::sized(self.n, self.m, self.i)?;
        Ok(rows::leading(self.xi, n))
    }

    // The state x and the covariance p of k states in place of the filter's. Refused as a wrong size: a size of the record, or k
    // is not n; as singular: inversion rejects p.
    pub fn reset(self, x: [f64; 4], p: [[f64; 4]; 4], k: usize) -> Step<(), InformationFilter>
        ensures { result ≡ stepped self (resetting self x p k) }
    {
        let mut left = self;
        let answer = left.reset_in(&x, &p, k);
        Step { answer, left }
    }

    // The filter of a model, omega and xi, given by the used parts of arrays of rows. Refused as a wrong size.
    pub fn from_information(
        n: usize,
        m: usize,
        i: usize,
        a: [[f64; 4]; 4],
        b: [[f64; 4]; 4],
        h: [[f64; 4]; 4],
        q: [[f64; 4]; 4],
        r: [[f64; 4]; 4],
        omega0: [[f64; 4]; 4],
        xi0: [f64; 4],
    ) -> Result<InformationFilter, Refusal>
        ensures { result ≡ from_information_of (motion_from n i a b q) (sensor_from n m h r) (information_from n omega0 xi0) }
    {
        let (sn, sm, si) = steps::sized(n, m, i)?;
        Ok(InformationFilter {
            n,
            m,
            i,
            a: kernel::flat_part(&a, sn, sn),
            b: kernel::flat_part(&b, sn, si),
            h: kernel::flat_part(&h, sm, sn),
            q: kernel::flat_part(&q, sn, sn),
            r: kernel::flat_part(&r, sm, sm),
            omega: kernel::flat_part(&omega0, sn, sn),
            xi: rows::leading(xi0, sn),
        })
    }

    // The filter of a model and an estimate: omega is p0 inverted, and xi is omega times x0. Refused as a wrong size; as
    // singular: inversion rejects p0.
    pub fn new(
        n: usize,
        m: usize,
        i: usize,
        a: [[f64; 4]; 4],
        b: [[f64; 4]; 4],
        h: [[f64; 4]; 4],
        q: [[f64; 4]; 4],
        r: [[f64; 4]; 4],
        x0: [f64; 4],
        p0: [[f64; 4]; 4],
    ) -> Result<InformationFilter, Refusal>
        ensures { result ≡ new_of (motion_from n i a b q) (sensor_from n m h r) (estimate_from n x0 p0) }
    {
        let (sn, _, _) = steps::sized(n, m, i)?;
        let mut omega = [[0.0; 4]; 4];
        let mut xi = [0.0; 4];
        information_steps::of_estimate(&x0, &p0, sn, &mut omega, &mut xi)?;
        InformationFilter::from_information(n, m, i, a, b, h, q, r, omega, xi)
    }
}
