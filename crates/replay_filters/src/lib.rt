// The calls of src/estimator/kalman.rs through their C functions. The words of a filter, a b h q r x p, lie as its slice does; steps
// follow them.
#![tactic(auto)]

ghost use Rattle.std.specs.Prelude.{◌<◌, IfSome};
ghost use Rattle.protocol.specs.Left.{left};

use answer::Refusal;
use estimators::filters;
use protocol::filter::{self, Filter, Model, Sizes, Step};
use protocol::given::Answer;
use protocol::names::Filtering;
use protocol::values::Values;

pub struct Linear;

impl Filter for Linear {
    // Sizes alone can be refused, for which no answer has a word.
    fn make(
        _is_new: bool,
        s: Sizes,
        words: &mut Values<'_>,
        filter: &mut [f64],
    ) -> Option<Result<(), Refusal>> {
        let k = Model::read(s, Self::noise(s), words)?;
        let x = words.take(s.state())?;
        let p = words.take(s.square())?;
        filters::estimators_kalman_new(s.n, s.m, s.i, k.a, k.b, k.h, k.q, k.r, x, p, filter).ok()?;
        Some(Ok(()))
    }

    fn take(
        step: Step<'_>,
        s: Sizes,
        filter: &mut [f64],
        told: &mut [f64],
    ) -> Option<Result<(), Refusal>> {
        let Sizes { n, m, i } = s;
        Some(match step {
            Step::Nothing => Ok(()),
            Step::Predict(u) => filters::estimators_kalman_predict(n, m, i, filter, u),
            Step::Update(z) => filters::estimators_kalman_update(n, m, i, filter, z, told),
            Step::Reset(x, p) => filters::estimators_kalman_reset(n, m, i, filter, x, p),
            Step::Covariance | Step::Fuse(_, _) | Step::State => return None,
        })
    }

    // Its state and its covariance.
    fn estimate(
        s: Sizes,
        filter: &[f64],
        vector: &mut [f64],
        matrix: &mut [f64],
    ) -> Result<(), Refusal> {
        let Sizes { n, m, i } = s;
        filters::estimators_kalman_state(n, m, i, filter, vector)?;
        filters::estimators_kalman_covariance(n, m, i, filter, matrix)
    }
}

// The room stands here, beside the must-fail edit that makes it smaller; the rest is one function for all kinds of filters.
pub fn answer<'a>(op: Filtering, mut words: Values<'_>, given: Answer<'a>) -> Option<Answer<'a>>
    ensures { IfSome result (λ a. left a < left given.entry) }
{
    let mut filter = [0.0; 112];
    let s = Sizes::read(&mut words)?;
    filter::replay::<Linear>(op, s, &mut words, &mut filter[..Linear::length(s)], given)
}

// The tracker of position and speed: its model, thirteen numbers, and what it leaves.
pub fn position_velocity<'a>(mut words: Values<'_>, given: Answer<'a>) -> Option<Answer<'a>>
    ensures { IfSome result (λ a. left a < left given.entry) }
{
    let mut filter = [0.0; 19];
    let dt = words.number()?;
    let q = words.number()?;
    let r = words.number()?;
    if !words.is_end() {
        return None;
    }
    let outcome = filters::estimators_kalman_position_velocity(dt, q, r, &mut filter);
    let told = given.told(outcome, &filter[..13])?;
    Linear::left(Sizes { n: 2, m: 1, i: 1 }, &filter, told.text(b"|")?)
}
