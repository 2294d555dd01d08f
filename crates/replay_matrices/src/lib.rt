// The operations of src/core/matrix.rs replayed through their C functions. The words of a call are its sizes, the cells of a and of b,
// and a number, as far as it takes them.
#![tactic(auto)]

ghost use Rattle.std.specs.Prelude.{◌<◌, ◌≤◌, IfSome};
ghost use Rattle.protocol.specs.Left.{left};

use answer::Refusal;
use estimators::matrices;
use protocol::given::Answer;
use protocol::names::{Made, Matrix, Number, OfOne, OfTwo};
use protocol::values::Values;
use protocol::words::cells;

// The rows and columns of a, where a vector has one column, and the next two sizes; 0 and no cells for what a call doesn't take.
#[derive(Clone, Copy)]
struct Call<'a> {
    r: usize,
    c: usize,
    i: usize,
    j: usize,
    a: &'a [f64],
    b: &'a [f64],
    x: f64,
}

// How many columns a has, where that is no word.
fn columns(op: Matrix, r: usize) -> Option<usize> {
    match op {
        Matrix::Made(Made::Identity)
        | Matrix::OfOne(OfOne::Inv | OfOne::Cholesky)
        | Matrix::Number(Number::Trace) => Some(r),
        Matrix::OfOne(OfOne::VecScale)
        | Matrix::OfTwo(OfTwo::VecAdd | OfTwo::VecSub)
        | Matrix::Number(Number::VecDot | Number::VecNorm) => Some(1),
        _ => None,
    }
}

// How many words are the cells of a, of b, and how many a number; those of Outer are counted in `outer`.
fn numbers(op: Matrix, r: usize, c: usize, i: usize) -> (usize, usize, bool) {
    let rc = cells(r, c);
    match op {
        Matrix::Made(op) => (0, 0, op == Made::Filled),
        Matrix::OfOne(OfOne::Scale | OfOne::Set | OfOne::VecScale) => (rc, 0, true),
        Matrix::OfOne(_) => (rc, 0, false),
        Matrix::OfTwo(OfTwo::MatMul) => (rc, cells(c, i), false),
        Matrix::OfTwo(OfTwo::MatVec) => (rc, c, false),
        Matrix::OfTwo(_) | Matrix::Number(Number::VecDot) | Matrix::Equal => (rc, rc, false),
        Matrix::Number(_) => (rc, 0, false),
    }
}

impl<'a> Call<'a> {
    // Two sizes, the bits of a NaN where one is missing, and two vectors. There are as many words as the sizes and 2 make, modulo 2^64.
    fn outer(words: &mut Values<'a>) -> Option<Call<'a>> {
        let count = words.numbers().len();
        let r = words.size_or_nan();
        let c = words.size_or_nan();
        if r.wrapping_add(c).wrapping_add(2) != count {
            return None;
        }
        let a = words.part(r);
        let b = words.part(c);
        Some(Call {
            r,
            c,
            i: 0,
            j: 0,
            a,
            b,
            x: 0.0,
        })
    }

    fn read(op: Matrix, words: &mut Values<'a>) -> Option<Call<'a>> {
        if op == Matrix::OfTwo(OfTwo::Outer) {
            return Call::outer(words);
        }
        let r = words.size()?;
        let c = match columns(op, r) {
            Some(c) => c,
            None => words.size()?,
        };
        let i = match op {
            Matrix::OfTwo(OfTwo::MatMul)
            | Matrix::OfOne(OfOne::Set)
            | Matrix::Number(Number::Get) => { words.size()? }
            _ => 0,
        };
        let j = match op {
            Matrix::OfOne(OfOne::Set) | Matrix::Number(Number::Get) => words.size()?,
            _ => 0,
        };
        let (of_a, of_b, has_x) = numbers(op, r, c, i);
        let a = words.take(of_a)?;
        let b = words.take(of_b)?;
        let x = if has_x { words.number()? } else { 0.0 };
        Some(Call {
            r,
            c,
            i,
            j,
            a,
            b,
            x,
        })
    }

    // How many numbers the result has.
    fn result(self, op: Matrix) -> usize
        ensures { result ≤ 16 }
    {
        match op {
            Matrix::OfTwo(OfTwo::MatMul) => cells(self.r, self.i),
            Matrix::OfTwo(OfTwo::MatVec) => self.r.min(16),
            _ => cells(self.r, self.c),
        }
    }

    fn made(self, op: Made, out: &mut [f64]) -> Result<(), Refusal> {
        match op {
            Made::Zeros => matrices::estimators_matrix_zeros(self.r, self.c, out),
            Made::Default => matrices::estimators_matrix_default(self.r, self.c, out),
            Made::Filled => matrices::estimators_matrix_filled(self.r, self.c, self.x, out),
            Made::Identity => matrices::estimators_matrix_identity(self.r, out),
        }
    }

    fn of_one(self, op: OfOne, out: &mut [f64]) -> Result<(), Refusal> {
        let Call {
            r,
            c,
            i,
            j,
            a,
            x,
            ..
        } = self;
        match op {
            OfOne::Transpose => matrices::estimators_matrix_transpose(r, c, a, out),
            OfOne::Scale => matrices::estimators_matrix_scale(r, c, a, x, out),
            OfOne::Neg => matrices::estimators_matrix_neg(r, c, a, out),
            OfOne::Set => matrices::estimators_matrix_set(r, c, i, j, a, x, out),
            OfOne::VecScale => matrices::estimators_matrix_vec_scale(r, a, x, out),
            OfOne::Inv => matrices::estimators_matrix_inv(r, a, out),
            OfOne::Cholesky => matrices::estimators_matrix_cholesky(r, a, out),
        }
    }

    fn of_two(self, op: OfTwo, out: &mut [f64]) -> Result<(), Refusal> {
        let Call { r, c, i, a, b, .. } = self;
        match op {
            OfTwo::Add => matrices::estimators_matrix_add_mat(r, c, a, b, out),
            OfTwo::Sub => matrices::estimators_matrix_sub_mat(r, c, a, b, out),
            OfTwo::MatMul => matrices::estimators_matrix_matmul(r, c, i, a, b, out),
            OfTwo::MatVec => matrices::estimators_matrix_matvec(r, c, a, b, out),
            OfTwo::Outer => matrices::estimators_matrix_outer(r, c, a, b, out),
            OfTwo::VecAdd => matrices::estimators_matrix_vec_add(r, a, b, out),
            OfTwo::VecSub => matrices::estimators_matrix_vec_sub(r, a, b, out),
        }
    }

    fn number(self, op: Number, out: &mut f64) -> Result<(), Refusal> {
        let Call {
            r,
            c,
            i,
            j,
            a,
            b,
            ..
        } = self;
        match op {
            Number::FrobNorm => matrices::estimators_matrix_frob_norm(r, c, a, out),
            Number::Trace => matrices::estimators_matrix_trace(r, a, out),
            Number::Get => matrices::estimators_matrix_get(r, c, i, j, a, out),
            Number::VecDot => matrices::estimators_matrix_vec_dot(r, a, b, out),
            Number::VecNorm => matrices::estimators_matrix_vec_norm(r, a, out),
        }
    }
}

// ---- answers

fn told_equal<'a>(k: Call<'_>, given: Answer<'a>) -> Option<Answer<'a>>
    ensures { IfSome result (λ a. left a < left given.entry) }
{
    let mut is_equal = false;
    let outcome = matrices::estimators_matrix_eq(k.r, k.c, k.a, k.b, &mut is_equal);
    given.told(outcome, &[])?.count(u64::from(is_equal))
}

fn told_number<'a>(op: Number, k: Call<'_>, given: Answer<'a>) -> Option<Answer<'a>>
    ensures { IfSome result (λ a. left a < left given.entry) }
{
    let mut x = 0.0;
    let outcome = k.number(op, &mut x);
    given.told(outcome, &[x])
}

pub fn answer<'a>(op: Matrix, mut words: Values<'_>, given: Answer<'a>) -> Option<Answer<'a>>
    ensures { IfSome result (λ a. left a < left given.entry) }
{
    let k = Call::read(op, &mut words)?;
    if !words.is_end() {
        return None;
    }
    let mut out = [0.0; 16];
    let matrix = &mut out[..k.result(op)];
    let outcome = match op {
        Matrix::Made(op) => k.made(op, matrix),
        Matrix::OfOne(op) => k.of_one(op, matrix),
        Matrix::OfTwo(op) => k.of_two(op, matrix),
        Matrix::Number(op) => return told_number(op, k, given),
        Matrix::Equal => return told_equal(k, given),
    };
    given.told(outcome, matrix)
}
