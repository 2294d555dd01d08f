// The calls of src/estimator/information_filter.rs through their C functions. The words of a filter, a b h q r omega xi, lie as its
// slice does; those of `if_new` end in x0 p0. Steps follow them.
#![tactic(auto)]

ghost use Rattle.std.specs.Prelude.{◌<◌, IfSome};
ghost use Rattle.protocol.specs.Left.{left};

use answer::Refusal;
use estimators::information;
use protocol::filter::{self, Filter, Model, Sizes, Step};
use protocol::given::Answer;
use protocol::names::Filtering;
use protocol::values::Values;
use protocol::words::cells;

pub struct Information;

// The filter of an estimate, with which the words end.
fn of_estimate(
    s: Sizes,
    k: Model<'_>,
    words: &mut Values<'_>,
    filter: &mut [f64],
) -> Option<Result<(), Refusal>> {
    let x = words.take(s.state())?;
    let p = words.take(s.square())?;
    if !words.is_end() {
        return None;
    }
    Some(information::estimators_information_new(
        s.n, s.m, s.i, k.a, k.b, k.h, k.q, k.r, x, p, filter,
    ))
}

// Sizes alone can be refused, for which no answer has a word.
fn of_information(
    s: Sizes,
    k: Model<'_>,
    words: &mut Values<'_>,
    filter: &mut [f64],
) -> Option<Result<(), Refusal>> {
    let omega = words.take(s.square())?;
    let xi = words.take(s.state())?;
    information::estimators_information_from_information(
        s.n, s.m, s.i, k.a, k.b, k.h, k.q, k.r, omega, xi, filter,
    ).ok()?;
    Some(Ok(()))
}

// One sensor by its own function, else a list.
fn fuse(s: Sizes, filter: &mut [f64], count: usize, sensors: &[f64]) -> Result<(), Refusal> {
    let Sizes { n, m, i } = s;
    if count != 1 {
        return information::estimators_information_fuse_sensors(n, m, i, filter, count, sensors);
    }
    let mut sensor = Values::new(sensors);
    let h = sensor.part(cells(m, n));
    let r_inv = sensor.part(cells(m, m));
    let z = sensor.numbers();
    information::estimators_information_fuse_sensor(n, m, i, filter, h, r_inv, z)
}

impl Filter for Information {
    const MATRIX_FIRST: bool = true;

    fn make(
        is_new: bool,
        s: Sizes,
        words: &mut Values<'_>,
        filter: &mut [f64],
    ) -> Option<Result<(), Refusal>> {
        let k = Model::read(s, Self::noise(s), words)?;
        if is_new {
            of_estimate(s, k, words, filter)
        } else {
            of_information(s, k, words, filter)
        }
    }

    fn take(
        step: Step<'_>,
        s: Sizes,
        filter: &mut [f64],
        told: &mut [f64],
    ) -> Option<Result<(), Refusal>> {
        let Sizes { n, m, i } = s;
        Some(match step {
            Step::Nothing => Ok(()),
            Step::Predict(u) => information::estimators_information_predict(n, m, i, filter, u),
            Step::Update(z) => information::estimators_information_update(n, m, i, filter, z, told),
            Step::Fuse(count, sensors) => fuse(s, filter, count, sensors),
            Step::State => information::estimators_information_state(n, m, i, filter, told),
            Step::Covariance => information::estimators_information_covariance(
                n, m, i, filter, told,
            ),
            Step::Reset(x, p) => information::estimators_information_reset(n, m, i, filter, x, p),
        })
    }

    // Its xi and its omega.
    fn estimate(
        s: Sizes,
        filter: &[f64],
        vector: &mut [f64],
        matrix: &mut [f64],
    ) -> Result<(), Refusal> {
        let Sizes { n, m, i } = s;
        information::estimators_information_matrix(n, m, i, filter, matrix)?;
        information::estimators_information_vector(n, m, i, filter, vector)
    }
}

// The room stands here, beside the must-fail edit that makes it smaller; the rest is one function for all kinds of filters.
pub fn answer<'a>(op: Filtering, mut words: Values<'_>, given: Answer<'a>) -> Option<Answer<'a>>
    ensures { IfSome result (λ a. left a < left given.entry) }
{
    let mut filter = [0.0; 112];
    let s = Sizes::read_or_nan(&mut words);
    filter::replay::<Information>(
        op,
        s,
        &mut words,
        &mut filter[..Information::length(s)],
        given,
    )
}
