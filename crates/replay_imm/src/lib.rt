// The operations of src/estimator/imm.rs replayed through their C functions. The words of a bank lie as its slice does; those of
// imm_new lack the probabilities.
#![tactic(auto)]

ghost use Rattle.std.specs.Prelude.{◌<◌, ◌≤◌, IfSome};
ghost use Rattle.protocol.specs.Left.{left};

use answer::Refusal;
use estimators::imm;
use protocol::given::Answer;
use protocol::names::Mixing;
use protocol::values::Values;
use protocol::words::cells;

// States, measurements and models.
#[derive(Clone, Copy)]
struct Sizes {
    n: usize,
    m: usize,
    k: usize,
}

impl Sizes {
    fn read(words: &mut Values<'_>) -> Sizes {
        let n = words.size_or_nan();
        let m = words.size_or_nan();
        let k = words.size_or_nan();
        Sizes { n, m, k }
    }

    // The numbers of a model: a, x, p, q and a likelihood.
    fn model(self) -> usize
        ensures { (0 < result) × (result ≤ 65) }
    {
        let square = cells(self.n, self.n);
        square + cells(self.n, 1) + square + square + 1
    }

    // The numbers of all models; 0 for more than 4.
    fn models(self) -> usize
        ensures { result ≤ 260 }
    {
        if self.k <= 4 {
            self.model() * self.k
        } else {
            0
        }
    }

    // The numbers of a bank: the models, the transition, c, r and the probabilities.
    fn bank(self) -> usize
        ensures { result ≤ 324 }
    {
        let matrices = cells(self.k, self.k) + cells(self.m, self.n) + cells(self.m, self.m);
        self.models() + matrices + cells(self.k, 1)
    }
}

// ---- what a bank leaves: its probabilities, and each model's state, covariance and likelihood, for four models at most

fn model_left<'a>(s: Sizes, model: &[f64], given: Answer<'a>) -> Option<Answer<'a>>
    ensures { IfSome result (λ a. left a ≤ left given.entry) }
{
    let square = cells(s.n, s.n);
    let mut parts = Values::new(model);
    parts.part(square);
    let estimate = parts.part(cells(s.n, 1) + square);
    parts.part(square);
    given.numbers(estimate)?.numbers(parts.numbers())
}

fn left<'a>(s: Sizes, bank: &[f64], given: Answer<'a>) -> Option<Answer<'a>>
    ensures { IfSome result (λ a. left a ≤ left given.entry) }
{
    let mut parts = Values::new(bank);
    parts.part(s.models());
    parts.part(cells(s.k, s.k));
    parts.part(cells(s.m, s.n));
    parts.part(cells(s.m, s.m));
    let mut left = given.text(b"|")?.numbers(parts.numbers())?;
    for model in bank.chunks(s.model()).take(s.k.min(4)) {
        left = model_left(s, model, left)?;
    }
    Some(left)
}

// ---- operations, and what they tell

// The bank of the words. Words that end early are refused.
fn make(s: Sizes, mut words: Values<'_>, bank: &mut [f64]) -> Result<(), Refusal> {
    let models = words.part(s.models());
    let transition = words.part(cells(s.k, s.k));
    let c = words.part(cells(s.m, s.n));
    let r = words.part(cells(s.m, s.m));
    imm::estimators_imm_new(s.n, s.m, s.k, models, transition, c, r, bank)
}

// The next words into the bank; a NaN for each that is missing.
fn fill(bank: &mut [f64], words: &mut Values<'_>) {
    for x in bank.iter_mut() {
        *x = words.number_or_nan();
    }
}

fn fused<'a>(s: Sizes, bank: &[f64], given: Answer<'a>) -> Option<Answer<'a>>
    ensures { IfSome result (λ a. left a < left given.entry) }
{
    let mut out = [0.0; 16];
    let state = &mut out[..cells(s.n, 1)];
    given.told(
        imm::estimators_imm_fused_estimate(s.n, s.m, s.k, bank, state),
        state,
    )
}

fn probability<'a>(s: Sizes, bank: &[f64], model: usize, given: Answer<'a>) -> Option<Answer<'a>>
    ensures { IfSome result (λ a. left a < left given.entry) }
{
    let mut x = 0.0;
    let outcome = imm::estimators_imm_model_probability(s.n, s.m, s.k, bank, model, &mut x);
    given.told(outcome, &[x])
}

fn told<'a>(
    op: Mixing,
    s: Sizes,
    words: &mut Values<'_>,
    bank: &mut [f64],
    given: Answer<'a>,
) -> Option<Answer<'a>>
    ensures { IfSome result (λ a. left a < left given.entry) }
{
    let from_start = *words;
    fill(bank, words);
    let Sizes { n, m, k } = s;
    let outcome = match op {
        Mixing::New => make(s, from_start, bank),
        Mixing::Mix => imm::estimators_imm_mix_estimates(n, m, k, bank),
        Mixing::Probabilities => imm::estimators_imm_update_probabilities(n, m, k, bank),
        Mixing::Fused => return fused(s, bank, given),
        Mixing::Probability => return probability(s, bank, words.size_or_nan(), given),
    };
    given.told(outcome, &[])
}

pub fn answer<'a>(op: Mixing, mut words: Values<'_>, given: Answer<'a>) -> Option<Answer<'a>>
    ensures { IfSome result (λ a. left a < left given.entry) }
{
    let mut bank = [0.0; 324];
    let s = Sizes::read(&mut words);
    let held = &mut bank[..s.bank()];
    let told = told(op, s, &mut words, held, given)?;
    left(s, held, told)
}
