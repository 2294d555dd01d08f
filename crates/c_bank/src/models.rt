// What stands step by step in a slice, once for each model: a number, or four. Four are read whatever the size, so that no size is
// asked for: those that are not used are ignored.
ghost use Rattle.std.specs.Prelude.{◌≡◌, ℕ, List, ◌+◌, ◌*◌, ◌≤◌, length, replicate, Float};
ghost use Rattle.scalar.specs.Number.{+0};
ghost use Rattle.answer.specs.Table.{table, pad_to};
ghost use Rattle.algebra.specs.Matrix.{at};
ghost use Rattle.sizes.specs.Size.{count};
ghost use Rattle.layout.specs.Layout.{vector_at};

use sizes::Size;

pub(crate) trait Reading: Copy {
    ghost width: { ℕ };

    ghost held: { List Float → ℕ → Self };

    ghost empty: { Self };

    // What stands from number k on.
    fn read(b: &[f64], k: usize) -> Self
        requires { k + width ≤ length b.now }
        ensures { result ≡ held b.now k };

    // What is read of a model that is not there.
    fn none() -> Self
        ensures { result ≡ empty };
}

impl Reading for f64 {
    ghost width = { 1 };

    ghost held = { at };

    ghost empty = { +0 };

    fn read(b: &[f64], k: usize) -> f64 {
        b[k]
    }

    fn none() -> f64 {
        0.0
    }
}

impl Reading for [f64; 4] {
    ghost width = { 4 };

    ghost held = { vector_at 4 };

    ghost empty = { replicate 4 +0 };

    fn read(b: &[f64], k: usize) -> [f64; 4] {
        [b[k], b[k + 1], b[k + 2], b[k + 3]]
    }

    fn none() -> [f64; 4] {
        [0.0; 4]
    }
}

// Of each of m models, from number k on. Written out: a compiler makes compares of `<`, and stores no row in between.
pub(crate) fn each<T: Reading>(b: &[f64], k: usize, step: usize, m: Size) -> [T; 4]
    requires { k + count m * step + T.width ≤ length b.now + step }
    ensures { result ≡ pad_to 4 T.empty (table (count m) (λ i. T.held b.now (k + i * step))) }
{
    let models = usize::from(m);
    let none = T::none();
    let r0 = T::read(b, k);
    if models < 2 {
        return [r0, none, none, none];
    }
    let r1 = T::read(b, k + step);
    if models < 3 {
        return [r0, r1, none, none];
    }
    let r2 = T::read(b, k + 2 * step);
    if models < 4 {
        return [r0, r1, r2, none];
    }
    let r3 = T::read(b, k + 3 * step);
    [r0, r1, r2, r3]
}
