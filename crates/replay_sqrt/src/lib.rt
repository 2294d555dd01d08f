// The calls of src/estimator/sqrt_kalman.rs through their C functions. The words of a filter, a b h q rdiag x s, lie as its slice
// does; those of `sq_new` end in a covariance. Steps follow them.
#![tactic(auto)]

ghost use Rattle.std.specs.Prelude.{◌<◌, IfSome};
ghost use Rattle.protocol.specs.Left.{left};

use answer::Refusal;
use estimators::sqrt_kalman;
use protocol::filter::{self, Filter, Model, Sizes, Step};
use protocol::given::Answer;
use protocol::names::Filtering;
use protocol::values::Values;
use protocol::words::cells;

pub struct SquareRoot;

impl Filter for SquareRoot {
    const HAS_SENSORS: bool = false;

    fn noise(s: Sizes) -> usize {
        cells(s.m, 1)
    }

    // Words that end early are refused.
    fn make(
        is_new: bool,
        s: Sizes,
        words: &mut Values<'_>,
        filter: &mut [f64],
    ) -> Option<Result<(), Refusal>> {
        let Sizes { n, m, i } = s;
        let k = Model::part(s, Self::noise(s), words);
        let x = words.part(s.state());
        let last = words.part(s.square());
        Some(if is_new {
            sqrt_kalman::estimators_sqrt_kalman_new(
                n, m, i, k.a, k.b, k.h, k.q, k.r, x, last, filter,
            )
        } else {
            sqrt_kalman::estimators_sqrt_kalman_from_cholesky(
                n, m, i, k.a, k.b, k.h, k.q, k.r, x, last, filter,
            )
        })
    }

    fn take(
        step: Step<'_>,
        s: Sizes,
        filter: &mut [f64],
        told: &mut [f64],
    ) -> Option<Result<(), Refusal>> {
        let Sizes { n, m, i } = s;
        Some(match step {
            Step::Nothing => Ok(()),
            Step::Covariance => sqrt_kalman::estimators_sqrt_kalman_covariance(
                n, m, i, filter, told,
            ),
            Step::Predict(u) => sqrt_kalman::estimators_sqrt_kalman_predict(n, m, i, filter, u),
            Step::Update(z) => sqrt_kalman::estimators_sqrt_kalman_update(n, m, i, filter, z, told),
            Step::Reset(x, p) => sqrt_kalman::estimators_sqrt_kalman_reset(n, m, i, filter, x, p),
            Step::Fuse(_, _) | Step::State => return None,
        })
    }

    // Its state and its factor.
    fn estimate(
        s: Sizes,
        filter: &[f64],
        vector: &mut [f64],
        matrix: &mut [f64],
    ) -> Result<(), Refusal> {
        let Sizes { n, m, i } = s;
        sqrt_kalman::estimators_sqrt_kalman_state(n, m, i, filter, vector)?;
        sqrt_kalman::estimators_sqrt_kalman_cholesky_factor(n, m, i, filter, matrix)
    }
}

// The room stands here, beside the must-fail edit that makes it smaller; the rest is one function for all kinds of filters.
pub fn answer<'a>(op: Filtering, mut words: Values<'_>, given: Answer<'a>) -> Option<Answer<'a>>
    ensures { IfSome result (λ a. left a < left given.entry) }
{
    let mut filter = [0.0; 112];
    let s = Sizes::read_or_nan(&mut words);
    filter::replay::<SquareRoot>(
        op,
        s,
        &mut words,
        &mut filter[..SquareRoot::length(s)],
        given,
    )
}
