// src/estimator/kalman.rs at f64: the linear Kalman filter as a record by value, over the steps on lent rows. Each step takes
// the record and hands back its answer and the record that it leaves; a refusal leaves it unchanged.
#![tactic(auto)]

ghost use Rattle.std.specs.Prelude.{◌≡◌};
ghost use Rattle.answer.specs.Answer.{Answer};
ghost use Rattle.answer.specs.Outcome.{handed, standing};
ghost use Rattle.algebra.specs.Matrix.{at};
ghost use Rattle.algebra.specs.Array.{cut, used_flat};
ghost use Rattle.sizes.specs.Size.{count};
ghost use Rattle.matrix.specs.Result.{as_vector};
ghost use Rattle.road.specs.Road.{matrix_of, motion_of, sensor_of, estimate_of};
ghost use Rattle.steps.specs.Flat.{flat, motion_flat, sensor_flat, motion_from, sensor_from, estimate_from};
ghost use Rattle.kalman.specs.Record.{estimate_flat, holding, predict_flat, update_flat, new_of, position_velocity_of, state_of, covariance_of};
ghost use Rattle.kalman.specs.Record.{predicting, resetting, updating, predict_of, reset_of, update_of, update_one_of};

use answer::{Refusal, Step};
use road::{Motion, Pair, Road, Sensor, Two};
use sizes::Size;

// Sizes: state n, measurement m, input i. Transition a (n by n), input matrix b (n by i), measurement matrix h (m by n), process
// noise q (n by n), measurement noise r (m by m), state x, covariance p (n by n). A matrix stands flat, four numbers a row; what
// stands outside its sizes is ignored.
#[derive(Clone, Copy)]
pub struct KalmanFilter {
    pub n: usize,
    pub m: usize,
    pub i: usize,
    pub a: [f64; 16],
    pub b: [f64; 16],
    pub h: [f64; 16],
    pub q: [f64; 16],
    pub r: [f64; 16],
    pub x: [f64; 4],
    pub p: [f64; 16],
}

// ---- one road: the numbers of the record, read where they stand

// The two rows and columns of a flat matrix.
#[tactic(auto, unfolding(algebra::specs::Array::used_flat))]
fn two_in(f: &[f64; 16]) -> Two
    ensures { matrix_of result ≡ used_flat 2 2 f.now }
{
    Two {
        a: f[0],
        b: f[1],
        c: f[4],
        d: f[5],
    }
}

// Laid flat, +0 outside.
#[tactic(auto, unfolding(algebra::specs::Array::pad))]
fn flat_two(t: Two) -> [f64; 16]
    ensures { result ≡ flat (matrix_of t) }
{
    let z = [0.0; 4];
    kernel::to_flat(&[[t.a, t.b, 0.0, 0.0], [t.c, t.d, 0.0, 0.0], z, z])
}

impl KalmanFilter {
    #[tactic(auto, unfolding(algebra::specs::Array::used_flat))]
    fn motion(&self) -> Motion
        ensures { motion_of result ≡ motion_flat 2 1 self.now.a self.now.b self.now.q }
    {
        Motion {
            a: two_in(&self.a),
            b0: self.b[0],
            b1: self.b[4],
            q: two_in(&self.q),
        }
    }

    #[tactic(auto, unfolding(algebra::specs::Array::used_flat))]
    fn sensor(&self) -> Sensor
        ensures { sensor_of result ≡ sensor_flat 2 1 self.now.h self.now.r }
    {
        Sensor {
            h0: self.h[0],
            h1: self.h[1],
            r: self.r[0],
        }
    }

    #[tactic(auto, unfolding(algebra::specs::Array::cut))]
    fn pair(&self) -> Pair
        ensures { estimate_of result ≡ estimate_flat 2 self.now.x self.now.p }
    {
        Pair {
            x0: self.x[0],
            x1: self.x[1],
            p: two_in(&self.p),
        }
    }

    fn put_pair(&mut self, e: Pair)
        ensures { self.new ≡ holding self.old (estimate_of e) }
    {
        self.x = [e.x0, e.x1, 0.0, 0.0];
        self.p = flat_two(e.p);
    }

    fn predict_road(&mut self, u: &[f64; 4])
        ensures { self.new ≡ standing (holding self.old) self.old (predict_flat 2 1 self.old u.now).left }
    {
        let e = self.motion().predict(u[0], self.pair());
        self.put_pair(e);
    }

    fn update_road(&mut self, z: &[f64; 4]) -> Result<[f64; 4], Refusal>
        ensures { (result, self.new) ≡ handed as_vector (holding self.old) self.old (update_flat 2 1 self.old (cut 1 z.now)) }
    {
        let sensor = self.sensor();
        let e = self.pair();
        let found = sensor.innovation(z[0], e)?;
        self.put_pair(sensor.corrected(e, found));
        Ok([found.innovation, 0.0, 0.0, 0.0])
    }

    // ---- any sizes: the matrices of the record as rows

    fn predict_rows(&mut self, u: &[f64; 4], n: Size, i: Size)
        ensures { self.new ≡ standing (holding self.old) self.old (predict_flat (count n) (count i) self.old u.now).left }
    {
        let a = kernel::from_flat(&self.a);
        let b = kernel::from_flat(&self.b);
        let q = kernel::from_flat(&self.q);
        let mut p = kernel::from_flat(&self.p);
        steps::predict(&a, &b, &q, u, n, i, &mut self.x, &mut p);
        self.p = kernel::to_flat(&p);
    }

    fn update_rows(&mut self, z: &[f64; 4], n: Size, m: Size) -> Result<[f64; 4], Refusal>
        ensures { (result, self.new) ≡ handed as_vector (holding self.old) self.old
            (update_flat (count n) (count m) self.old (cut (count m) z.now)) }
    {
        let h = kernel::from_flat(&self.h);
        let r = kernel::from_flat(&self.r);
        let mut p = kernel::from_flat(&self.p);
        let y = steps::update(&h, &r, z, n, m, &mut self.x, &mut p)?;
        self.p = kernel::to_flat(&p);
        Ok(y)
    }

    // ---- the steps in place

    fn predict_in(&mut self, u: &[f64; 4], k: usize) -> Result<(), Refusal>
        ensures { (result, self.new) ≡ handed (λ a. a) (holding self.old) self.old (predicting self.old u.now k) }
    {
        let (n, _, i) = steps::fitted(self.n, self.m, self.i, self.i, k)?;
        if let (Size::Two, Size::One) = (n, i) {
            self.predict_road(u);
        } else {
            self.predict_rows(u, n, i);
        }
        Ok(())
    }

    fn update_in(&mut self, z: &[f64; 4], k: usize) -> Result<[f64; 4], Refusal>
        ensures { (result, self.new) ≡ handed as_vector (holding self.old) self.old (updating self.old (cut self.old.m z.now) k) }
    {
        let (n, m, _) = steps::fitted(self.n, self.m, self.i, self.m, k)?;
        if let (Size::Two, Size::One) = (n, m) {
            self.update_road(z)
        } else {
            self.update_rows(z, n, m)
        }
    }

    fn reset_in(&mut self, x: [f64; 4], p: &[[f64; 4]; 4], k: usize) -> Result<(), Refusal>
        ensures { (result, self.new) ≡ handed (λ a. a) (holding self.old) self.old (resetting self.old x p.now k) }
    {
        let (n, _, _) = steps::fitted(self.n, self.m, self.i, self.n, k)?;
        self.x = rows::leading(x, n);
        self.p = kernel::flat_part(p, n, n);
        Ok(())
    }

    // ---- the steps by value

    // The state and its covariance one step on, with the input u of k numbers. Refused as a wrong size: a size of the
    // record, or k is not i.
    pub fn predict(self, u: [f64; 4], k: usize) -> Step<(), KalmanFilter>
        ensures { result ≡ predict_of self u k }
    {
        let mut left = self;
        let answer = left.predict_in(&u, k);
        Step { answer, left }
    }

    // The state and its covariance corrected by the measurement z of k numbers; the innovation is z less H
    // times the state before. Refused as a wrong size: a size, or k is not m; as singular: the innovation covariance
    // is rejected.
    pub fn update(self, z: [f64; 4], k: usize) -> Step<[f64; 4], KalmanFilter>
        ensures { result ≡ update_of self z k }
    {
        let mut left = self;
        let answer = left.update_in(&z, k);
        Step { answer, left }
    }

    // The same for one reading, m = 1: the innovation as a number.
    pub fn update_one(self, z: f64) -> Step<f64, KalmanFilter>
        ensures { result ≡ update_one_of self z }
    {
        let Step { answer, left } = self.update([z, 0.0, 0.0, 0.0], 1);
        let first = |y: [f64; 4]| -> f64
            ensures { result ≡ at y 0 }
        { y[0] };
        Step {
            answer: answer.map(first),
            left,
        }
    }

    // The state x and the covariance p of k states. Refused as a wrong size: a size of the record, or k is not n.
    pub fn reset(self, x: [f64; 4], p: [[f64; 4]; 4], k: usize) -> Step<(), KalmanFilter>
        ensures { result ≡ reset_of self x p k }
    {
        let mut left = self;
        let answer = left.reset_in(x, &p, k);
        Step { answer, left }
    }

    // The state, of n numbers. Refused as a wrong size: a size of the record.
    pub fn state(self) -> Result<[f64; 4], Refusal>
        ensures { result ≡ state_of self }
    {
        let (n, _, _) = steps::sized(self.n, self.m, self.i)?;
        Ok(rows::leading(self.x, n))
    }

    // The covariance, n by n. Refused as a wrong size: a size of the record.
    pub fn covariance(self) -> Result<[[f64; 4]; 4], Refusal>
        ensures { result ≡ covariance_of self }
    {
        let (n, _, _) = steps::sized(self.n, self.m, self.i)?;
        let p = kernel::from_flat(&self.p);
        Ok(rows::used_part(&p, n, n))
    }

    // The filter of a model and an estimate, given by the used parts of arrays of rows. Refused as a wrong size.
    pub fn new(
        n: usize,
        m: usize,
        i: usize,
        a: [[f64; 4]; 4],
        b: [[f64; 4]; 4],
        h: [[f64; 4]; 4],
        q: [[f64; 4]; 4],
        r: [[f64; 4]; 4],
        x0: [f64; 4],
        p0: [[f64; 4]; 4],
    ) -> Result<KalmanFilter, Refusal>
        ensures { result ≡ new_of (motion_from n i a b q) (sensor_from n m h r) (estimate_from n x0 p0) }
    {
        let (sn, sm, si) = steps::sized(n, m, i)?;
        Ok(KalmanFilter {
            n,
            m,
            i,
            a: kernel::flat_part(&a, sn, sn),
            b: kernel::flat_part(&b, sn, si),
            h: kernel::flat_part(&h, sm, sn),
            q: kernel::flat_part(&q, sn, sn),
            r: kernel::flat_part(&r, sm, sm),
            x: rows::leading(x0, sn),
            p: kernel::flat_part(&p0, sn, sn),
        })
    }

    // Position and speed, with the step dt in seconds; the position is measured.
    pub fn position_velocity(dt: f64, process_noise: f64, measurement_noise: f64) -> KalmanFilter
        ensures { result ≡ position_velocity_of dt process_noise measurement_noise }
    {
        let f = Road::position_velocity(dt, process_noise, measurement_noise);
        let Road {
            motion,
            sensor,
            pair,
        } = f;
        let z = [0.0; 4];
        KalmanFilter {
            n: 2,
            m: 1,
            i: 1,
            a: flat_two(motion.a),
            b: kernel::to_flat(&[[motion.b0, 0.0, 0.0, 0.0], [motion.b1, 0.0, 0.0, 0.0], z, z]),
            h: kernel::to_flat(&[[sensor.h0, sensor.h1, 0.0, 0.0], z, z, z]),
            q: flat_two(motion.q),
            r: kernel::to_flat(&[[sensor.r, 0.0, 0.0, 0.0], z, z, z]),
            x: [pair.x0, pair.x1, 0.0, 0.0],
            p: flat_two(pair.p),
        }
    }
}
