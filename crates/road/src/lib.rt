// One road, written out: two states, position and speed, one input and one measurement, by their numbers and not in arrays,
// so that a record and a slice are both read where their numbers stand. Each sum starts at +0, as for any size.
#![tactic(auto)]

ghost use Rattle.std.specs.Prelude.{◌≡◌, [], ◌∷◌};
ghost use Rattle.answer.specs.Answer.{mapped};
ghost use Rattle.answer.specs.Outcome.{done};
ghost use Rattle.algebra.specs.Inverse.{inv as inv_of};
ghost use Rattle.filtering.specs.Filter.{gain as gain_of};
ghost use Rattle.filtering.specs.Linear.{predict as predict_of, update as update_of};
ghost use Rattle.road.specs.Road.{matrix_of, motion_of, sensor_of, estimate_of, road_of, tracker_of, corrected_of, corrected_by, updated_of};

use answer::Refusal;

// The rows (a, b) and (c, d).
#[derive(Clone, Copy)]
pub struct Two {
    pub a: f64,
    pub b: f64,
    pub c: f64,
    pub d: f64,
}

// A state of two numbers and its covariance.
#[derive(Clone, Copy)]
pub struct Pair {
    pub x0: f64,
    pub x1: f64,
    pub p: Two,
}

// How a pair moves: to A x + B u, with process noise q.
#[derive(Clone, Copy)]
pub struct Motion {
    pub a: Two,
    pub b0: f64,
    pub b1: f64,
    pub q: Two,
}

// What is measured of a pair: H x, one number, with noise r.
#[derive(Clone, Copy)]
pub struct Sensor {
    pub h0: f64,
    pub h1: f64,
    pub r: f64,
}

// An update's innovation, and the inverted innovation variance.
#[derive(Clone, Copy)]
pub struct Innovation {
    pub innovation: f64,
    pub inverse: f64,
}

// A road's filter.
#[derive(Clone, Copy)]
pub struct Road {
    pub motion: Motion,
    pub sensor: Sensor,
    pub pair: Pair,
}

impl Road {
    // Position and speed, with the step dt in seconds; the position is measured. At the start both are 0, with a large variance.
    pub fn position_velocity(dt: f64, process_noise: f64, measurement_noise: f64) -> Road
        ensures { road_of result ≡ tracker_of dt process_noise measurement_noise }
    {
        let dt2 = dt * dt;
        let dt3 = dt2 * dt;
        let dt4 = dt3 * dt;
        let q01 = process_noise * dt3 * 0.5;
        let large = 1.0 * 1000.0;
        let none = 0.0 * 1000.0;
        Road {
            motion: Motion {
                a: Two {
                    a: 1.0,
                    b: dt,
                    c: 0.0,
                    d: 1.0,
                },
                b0: dt * dt * 0.5,
                b1: dt,
                q: Two {
                    a: process_noise * dt4 * 0.25,
                    b: q01,
                    c: q01,
                    d: process_noise * dt2,
                },
            },
            sensor: Sensor {
                h0: 1.0,
                h1: 0.0,
                r: measurement_noise * measurement_noise,
            },
            pair: Pair {
                x0: 0.0,
                x1: 0.0,
                p: Two {
                    a: large,
                    b: none,
                    c: none,
                    d: large,
                },
            },
        }
    }
}

impl Two {
    // Refused as singular: a column has no pivot.
    pub fn inverse(self) -> Result<Two, Refusal>
        ensures { mapped matrix_of result ≡ inv_of 2 (matrix_of self) }
    {
        let [[a, b], [c, d]] = small_inverse::inverse_two(self.a, self.b, self.c, self.d)?;
        Ok(Two { a, b, c, d })
    }
}

impl Motion {
    // A x + B u, and A P Aᵀ + Q.
    pub fn predict(self, u: f64, e: Pair) -> Pair
        ensures { done tt (estimate_of result) ≡ predict_of (motion_of self) (u ∷ []) (estimate_of e) }
    {
        let Motion { a, b0, b1, q } = self;
        let p = e.p;
        let s0 = 0.0 + a.a * p.a + a.b * p.c;
        let s1 = 0.0 + a.a * p.b + a.b * p.d;
        let t0 = 0.0 + a.c * p.a + a.d * p.c;
        let t1 = 0.0 + a.c * p.b + a.d * p.d;
        Pair {
            x0: (0.0 + a.a * e.x0 + a.b * e.x1) + (0.0 + b0 * u),
            x1: (0.0 + a.c * e.x0 + a.d * e.x1) + (0.0 + b1 * u),
            p: Two {
                a: (0.0 + s0 * a.a + s1 * a.b) + q.a,
                b: (0.0 + s0 * a.c + s1 * a.d) + q.b,
                c: (0.0 + t0 * a.a + t1 * a.b) + q.c,
                d: (0.0 + t0 * a.c + t1 * a.d) + q.d,
            },
        }
    }
}

// P Hᵀ × W, for an H of two rows: the smoother's gain, whose H is the transition.
pub fn gain(p: Two, h: Two, w: Two) -> Two
    ensures { matrix_of result ≡ gain_of 2 2 (matrix_of p) (matrix_of h) (matrix_of w) }
{
    let s0 = 0.0 + p.a * h.a + p.b * h.b;
    let s1 = 0.0 + p.a * h.c + p.b * h.d;
    let t0 = 0.0 + p.c * h.a + p.d * h.b;
    let t1 = 0.0 + p.c * h.c + p.d * h.d;
    Two {
        a: 0.0 + s0 * w.a + s1 * w.c,
        b: 0.0 + s0 * w.b + s1 * w.d,
        c: 0.0 + t0 * w.a + t1 * w.c,
        d: 0.0 + t0 * w.b + t1 * w.d,
    }
}

// An update by the measurement z is two functions, so that each is short enough to be inlined wherever it is called.
impl Sensor {
    // Its innovation. Refused as singular: inversion rejects the innovation variance; the pair stays.
    pub fn innovation(self, z: f64, e: Pair) -> Result<Innovation, Refusal>
        ensures { (mapped (λ i. i.innovation) result, corrected_by (sensor_of self) (estimate_of e) result)
            ≡ updated_of (estimate_of e) (update_of (sensor_of self) (z ∷ []) (estimate_of e)) }
    {
        let Sensor { h0, h1, r } = self;
        let p = e.p;
        let s0 = 0.0 + h0 * p.a + h1 * p.c;
        let s1 = 0.0 + h0 * p.b + h1 * p.d;
        let s = (0.0 + s0 * h0 + s1 * h1) + r;
        let inverse = small_inverse::inverse_number(s)?;
        Ok(Innovation {
            innovation: z - (0.0 + h0 * e.x0 + h1 * e.x1),
            inverse,
        })
    }

    // What it leads to: the rest of an update.
    pub fn corrected(self, e: Pair, found: Innovation) -> Pair
        ensures { estimate_of result ≡ corrected_of (sensor_of self) (estimate_of e) found }
    {
        let h0 = self.h0;
        let h1 = self.h1;
        let y = found.innovation;
        let w = found.inverse;
        let p = e.p;
        let k0 = 0.0 + (0.0 + p.a * h0 + p.b * h1) * w;
        let k1 = 0.0 + (0.0 + p.c * h0 + p.d * h1) * w;
        let s0 = 1.0 - (0.0 + k0 * h0);
        let s1 = 0.0 - (0.0 + k0 * h1);
        let t0 = 0.0 - (0.0 + k1 * h0);
        let t1 = 1.0 - (0.0 + k1 * h1);
        Pair {
            x0: e.x0 + (0.0 + k0 * y),
            x1: e.x1 + (0.0 + k1 * y),
            p: Two {
                a: 0.0 + s0 * p.a + s1 * p.c,
                b: 0.0 + s0 * p.b + s1 * p.d,
                c: 0.0 + t0 * p.a + t1 * p.c,
                d: 0.0 + t0 * p.b + t1 * p.d,
            },
        }
    }
}
