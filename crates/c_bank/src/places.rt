// Where the parts of a bank stand in its slice: the k models, one after another, each its a, x, p, q and likelihood, then the
// transition, c, r and the probabilities mu.
ghost use Rattle.std.specs.Prelude.{◌≡◌};
ghost use Rattle.answer.specs.Answer.{where_sized};
ghost use Rattle.c_bank.specs.Bank.{is_bank, places_of};

use answer::Refusal;
use sizes::{Size, size_of};

// The sizes of a bank by their type, how many numbers a model takes, and where parts begin: the first model's x, p and likelihood,
// and the bank's transition, c, r and mu.
#[derive(Clone, Copy)]
pub struct Places {
    pub n: Size,
    pub k: Size,
    pub step: usize,
    pub x: usize,
    pub p: usize,
    pub likelihood: usize,
    pub transition: usize,
    pub c: usize,
    pub r: usize,
    pub mu: usize,
}

impl Places {
    // The places of a bank of n states, m measurements and k models in a slice of len numbers. Refused as a wrong size: a size, or
    // the slice is not just such a bank.
    #[inline(always)]
    #[tactic(auto, unfolding(crate::specs::Bank::is_bank))]
    pub fn of(n: usize, m: usize, k: usize, len: usize) -> Result<Places, Refusal>
        ensures { result ≡ where_sized (is_bank n m k len) (places_of n m k) }
    {
        steps::sized(n, m, k)?;
        let square = n * n;
        let step = 3 * square + n + 1;
        let transition = k * step;
        let c = transition + k * k;
        let r = c + m * n;
        let mu = r + m * m;
        sizes::fits(len == mu + k)?;
        // Sizes by type last: made before the length is tested, they are kept beside their numbers and compared anew.
        Ok(Places {
            n: size_of(n),
            k: size_of(k),
            step,
            x: square,
            p: square + n,
            likelihood: step - 1,
            transition,
            c,
            r,
            mu,
        })
    }
}
