// The words of a call on a filter: its sizes, its parts as they lie in its slice, and steps, of a letter and numbers each; and how
// the calls on a filter of any kind are replayed.
ghost use Rattle.std.specs.Prelude.{◌≡◌, ◌<◌, ◌≤◌, ◌++◌, length, drop, get_or, IfSome};
ghost use Rattle.std.specs.Float.{binary64, nan};
ghost use Rattle.std.specs.Float.Ieee.{to_bits};
ghost use Rattle.protocol.specs.Left.{left};

use crate::given::Answer;
use crate::names::Filtering;
use crate::values::Values;
use crate::words::cells;
use answer::Refusal;

#[derive(Clone, Copy, Debug, PartialEq, Eq)]
pub enum Letter {
    Covariance = b'C' as isize,
    Fuse = b'F' as isize,
    Predict = b'P' as isize,
    Reset = b'R' as isize,
    State = b'S' as isize,
    Update = b'U' as isize,
}

// A byte that is no step's letter.
#[derive(Clone, Copy, Debug, PartialEq, Eq)]
pub struct NoLetter;

impl TryFrom<u8> for Letter {
    type Error = NoLetter;

    fn try_from(b: u8) -> Result<Letter, NoLetter> {
        match b {
            b'C' => Ok(Letter::Covariance),
            b'F' => Ok(Letter::Fuse),
            b'P' => Ok(Letter::Predict),
            b'R' => Ok(Letter::Reset),
            b'S' => Ok(Letter::State),
            b'U' => Ok(Letter::Update),
            _ => Err(NoLetter),
        }
    }
}

#[derive(Clone, Copy)]
pub struct Sizes {
    pub n: usize,
    pub m: usize,
    pub i: usize,
}

impl Sizes {
    pub fn read(words: &mut Values<'_>) -> Option<Sizes>
        ensures { length words.new.rest.now ≤ length words.old.rest.now }
    {
        let [n, m, i] = words.sizes()?;
        Some(Sizes { n, m, i })
    }

    // As `read`; the bits of a NaN for each word that is missing.
    pub fn read_or_nan(words: &mut Values<'_>) -> Sizes
        ensures n { result.n ≡ to_bits binary64 (get_or words.old.rest.now 0 nan) }
        ensures m { result.m ≡ to_bits binary64 (get_or words.old.rest.now 1 nan) }
        ensures i { result.i ≡ to_bits binary64 (get_or words.old.rest.now 2 nan) }
        ensures rest { words.new.rest.now ≡ drop 3 words.old.rest.now }
    {
        let n = words.size_or_nan();
        let m = words.size_or_nan();
        let i = words.size_or_nan();
        Sizes { n, m, i }
    }

    // How many numbers a state has.
    pub fn state(self) -> usize
        ensures { result ≤ 16 }
    {
        cells(self.n, 1)
    }

    // How many numbers a covariance has.
    pub fn square(self) -> usize
        ensures { result ≤ 16 }
    {
        cells(self.n, self.n)
    }

    // How many numbers a sensor takes.
    pub fn sensor(self) -> usize
        ensures { result ≤ 48 }
    {
        cells(self.m, self.n) + cells(self.m, self.m) + cells(self.m, 1)
    }
}

// The matrices a, b, h, q and r, by rows.
#[derive(Clone, Copy)]
pub struct Model<'a> {
    pub a: &'a [f64],
    pub b: &'a [f64],
    pub h: &'a [f64],
    pub q: &'a [f64],
    pub r: &'a [f64],
}

impl<'a> Model<'a> {
    // With that many numbers for r.
    pub fn read(s: Sizes, noise: usize, words: &mut Values<'a>) -> Option<Model<'a>>
        ensures { IfSome result (λ k. length k.r.now ≡ noise) }
    {
        let a = words.take(s.square())?;
        let b = words.take(cells(s.n, s.i))?;
        let h = words.take(cells(s.m, s.n))?;
        let q = words.take(s.square())?;
        let r = words.take(noise)?;
        Some(Model { a, b, h, q, r })
    }

    // What there is of each, one behind the other; r has that many numbers at most.
    pub fn part(s: Sizes, noise: usize, words: &mut Values<'a>) -> Model<'a>
        ensures words { result.a.now ++ result.b.now ++ result.h.now ++ result.q.now ++ result.r.now ++ words.new.rest.now ≡ words.old.rest.now }
        ensures noise { length result.r.now ≤ noise }
    {
        let a = words.part(s.square());
        let b = words.part(cells(s.n, s.i));
        let h = words.part(cells(s.m, s.n));
        let q = words.part(s.square());
        let r = words.part(noise);
        Model { a, b, h, q, r }
    }
}

// A step with its numbers.
#[derive(Clone, Copy)]
pub enum Step<'a> {
    Nothing,
    Covariance,
    Fuse(usize, &'a [f64]),
    Predict(&'a [f64]),
    Reset(&'a [f64], &'a [f64]),
    State,
    Update(&'a [f64]),
}

impl Step<'_> {
    // How many numbers it tells.
    pub fn told_cells(self, s: Sizes) -> usize
        ensures { result ≤ 16 }
    {
        match self {
            Step::Covariance => s.square(),
            Step::State => s.state(),
            Step::Update(_) => cells(s.m, 1),
            Step::Nothing | Step::Fuse(_, _) | Step::Predict(_) | Step::Reset(_, _) => 0,
        }
    }
}

// How many sensors the next word tells; 999 where there is none.
fn count(words: &mut Values<'_>) -> usize
    ensures { result ≤ 999 }
{
    words.count().unwrap_or(999)
}

impl Letter {
    // How many words its step has; those of sensors stand behind their count.
    fn cells(self, s: Sizes, mut words: Values<'_>) -> usize {
        match self {
            Letter::Covariance | Letter::State => 0,
            Letter::Predict => cells(s.i, 1),
            Letter::Update => cells(s.m, 1),
            Letter::Reset => s.state() + s.square(),
            Letter::Fuse => 1 + count(&mut words) * s.sensor(),
        }
    }

    // The step of its words, or of what there is of them.
    fn of<'a>(self, s: Sizes, mut own: Values<'a>) -> Step<'a> {
        match self {
            Letter::Covariance => Step::Covariance,
            Letter::State => Step::State,
            Letter::Predict => Step::Predict(own.numbers()),
            Letter::Update => Step::Update(own.numbers()),
            Letter::Reset => reset(s, own),
            Letter::Fuse => {
                let count = count(&mut own);
                Step::Fuse(count, own.numbers())
            }
        }
    }

    // The step whose numbers are the next words.
    pub fn step<'a>(self, s: Sizes, words: &mut Values<'a>) -> Option<Step<'a>>
        ensures { length words.new.rest.now ≤ length words.old.rest.now }
    {
        let own = words.take(self.cells(s, *words))?;
        Some(self.of(s, Values::new(own)))
    }
}

// A reset with all the words, of which the first are the state.
fn reset<'a>(s: Sizes, mut words: Values<'a>) -> Step<'a> {
    let x = words.part(s.state());
    Step::Reset(x, words.numbers())
}

// The value that takes no words and does nothing. Every other that is no letter is a reset without words.
const NOTHING: u64 = b'N' as u64;

// A step, and the reset with the same words, which a filter without that step takes.
#[derive(Clone, Copy)]
struct Asked<'a> {
    step: Step<'a>,
    reset: Step<'a>,
}

// A kind of filter: its calls through the C functions, on its slice. These take the sizes beside the slice, and so do the methods.
pub trait Filter {
    // Whether the answer has the square matrix that the filter leaves before the vector.
    const MATRIX_FIRST: bool = false;

    // Whether words follow the letter of a fusion.
    const HAS_SENSORS: bool = true;

    // How many numbers r has.
    fn noise(s: Sizes) -> usize
        ensures { result ≤ 16 }
    {
        cells(s.m, s.m)
    }

    // The filter of the words, new or as its slice holds it; none, if they make no call.
    fn make(
        is_new: bool,
        s: Sizes,
        words: &mut Values<'_>,
        filter: &mut [f64],
    ) -> Option<Result<(), Refusal>>;

    // Takes the step, and writes what it tells; none, if the filter has no such step. It is then reset with the step's words.
    fn take(
        step: Step<'_>,
        s: Sizes,
        filter: &mut [f64],
        told: &mut [f64],
    ) -> Option<Result<(), Refusal>>;

    // Writes the vector and the square matrix that the filter leaves.
    fn estimate(
        s: Sizes,
        filter: &[f64],
        vector: &mut [f64],
        matrix: &mut [f64],
    ) -> Result<(), Refusal>;

    // Answers what the filter leaves.
    fn left<'a>(s: Sizes, filter: &[f64], given: Answer<'a>) -> Option<Answer<'a>>
        ensures { IfSome result (λ a. left a ≤ left given.entry) }
    {
        let mut vector = [0.0; 16];
        let mut matrix = [0.0; 16];
        let x = &mut vector[..s.state()];
        let p = &mut matrix[..s.square()];
        Self::estimate(s, filter, x, p).ok()?;
        if Self::MATRIX_FIRST {
            given.numbers(p)?.numbers(x)
        } else {
            given.numbers(x)?.numbers(p)
        }
    }

    fn length(s: Sizes) -> usize
        ensures { result ≤ 112 }
    {
        let model = 2 * s.square() + cells(s.n, s.i) + cells(s.m, s.n) + Self::noise(s);
        model + s.state() + s.square()
    }
}

// The letter's step, of what there is of its words.
fn step_of<'a, F: Filter>(letter: Letter, s: Sizes, words: &mut Values<'a>) -> Asked<'a>
    ensures { length words.new.rest.now ≤ length words.old.rest.now }
{
    let count = if letter == Letter::Fuse && !F::HAS_SENSORS {
        0
    } else {
        letter.cells(s, *words)
    };
    let own = Values::new(words.part(count));
    Asked {
        step: letter.of(s, own),
        reset: reset(s, own),
    }
}

// What the next word asks for, if there is one.
fn next_step<'a, F: Filter>(s: Sizes, words: &mut Values<'a>) -> Option<Asked<'a>>
    ensures { IfSome result (λ asked. length words.new.rest.now < length words.old.rest.now) }
{
    let mut named = *words;
    let value = named.whole()?;
    Some(match words.letter() {
        Some(letter) => step_of::<F>(letter, s, words),
        None => alone(if value == NOTHING {
            Step::Nothing
        } else {
            Step::Reset(&[], &[])
        }),
    })
}

// A step that every filter has.
fn alone(step: Step<'_>) -> Asked<'_> {
    Asked { step, reset: step }
}

fn taken<'a, F: Filter>(
    asked: Asked<'_>,
    s: Sizes,
    filter: &mut [f64],
    given: Answer<'a>,
) -> Option<Answer<'a>>
    ensures { IfSome result (λ a. left a < left given.entry) }
{
    let mut out = [0.0; 16];
    let told = &mut out[..asked.step.told_cells(s)];
    let outcome = match F::take(asked.step, s, filter, told) {
        Some(outcome) => outcome,
        None => F::take(asked.reset, s, filter, told)?,
    };
    let left = given.told(outcome, told)?;
    F::left(s, filter, left.text(b"|")?)
}

// The first step, and the others to the end of the words, each behind its letter.
fn steps<'a, F: Filter>(
    first: Asked<'_>,
    s: Sizes,
    words: &mut Values<'_>,
    filter: &mut [f64],
    given: Answer<'a>,
) -> Option<Answer<'a>>
    ensures { IfSome result (λ a. left a < left given.entry) }
{
    let mut left = taken::<F>(first, s, filter, given)?;
    // A turn takes as many words as its step has.
    while !words.is_end() {
        let next = next_step::<F>(s, words)?;
        left = taken::<F>(next, s, filter, left.text(b";")?)?;
    }
    Some(left)
}

// The words behind the sizes, and the answer given.
pub fn replay<'a, F: Filter>(
    op: Filtering,
    s: Sizes,
    words: &mut Values<'_>,
    filter: &mut [f64],
    given: Answer<'a>,
) -> Option<Answer<'a>>
    ensures { IfSome result (λ a. left a < left given.entry) }
{
    if let Err(refusal) = F::make(op == Filtering::New, s, words, filter)? {
        return given.told(Err(refusal), &[]);
    }
    let first = match op {
        Filtering::New | Filtering::Held => alone(Step::Nothing),
        Filtering::Step(letter) => step_of::<F>(letter, s, words),
        Filtering::Steps => next_step::<F>(s, words)?,
    };
    steps::<F>(first, s, words, filter, given)
}
