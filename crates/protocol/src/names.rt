// The operations, by the module of the Rust whose functions they call, and the list of their names that the report goes by.
ghost use Rattle.std.specs.Prelude.{◌<◌, IfSome};

use crate::filter::Letter;

#[derive(Clone, Copy, Debug, PartialEq, Eq)]
pub enum Scalar {
    Consts,
    Sqrt,
    Abs,
    ClampVal,
    Saturate,
    FromF64,
    ToF64,
    FromInt,
    PidAbs,
    ClampPid,
}

// A matrix of no, of one or of two slices; a number; whether two are equal.
#[derive(Clone, Copy, Debug, PartialEq, Eq)]
pub enum Matrix {
    Made(Made),
    OfOne(OfOne),
    OfTwo(OfTwo),
    Number(Number),
    Equal,
}

#[derive(Clone, Copy, Debug, PartialEq, Eq)]
pub enum Made {
    Zeros,
    Default,
    Filled,
    Identity,
}

#[derive(Clone, Copy, Debug, PartialEq, Eq)]
pub enum OfOne {
    Transpose,
    Scale,
    Neg,
    Set,
    VecScale,
    Inv,
    Cholesky,
}

#[derive(Clone, Copy, Debug, PartialEq, Eq)]
pub enum OfTwo {
    Add,
    Sub,
    MatMul,
    MatVec,
    Outer,
    VecAdd,
    VecSub,
}

#[derive(Clone, Copy, Debug, PartialEq, Eq)]
pub enum Number {
    FrobNorm,
    Trace,
    Get,
    VecDot,
    VecNorm,
}

// A filter made anew or of the parts that it holds; one step with it; steps, each behind its letter.
#[derive(Clone, Copy, Debug, PartialEq, Eq)]
pub enum Filtering {
    New,
    Held,
    Step(Letter),
    Steps,
}

#[derive(Clone, Copy, Debug, PartialEq, Eq)]
pub enum Mixing {
    New,
    Mix,
    Probabilities,
    Fused,
    Probability,
}

#[derive(Clone, Copy, Debug, PartialEq, Eq)]
pub enum Smoothing {
    Store,
    Get,
    Smooth,
    Stale,
}

#[derive(Clone, Copy, Debug, PartialEq, Eq)]
pub enum Op {
    Scalar(Scalar),
    Matrix(Matrix),
    Linear(Filtering),
    PositionVelocity,
    Information(Filtering),
    SquareRoot(Filtering),
    Mixing(Mixing),
    Smoothing(Smoothing),
}

pub const COUNT: usize = 65;

pub const OPS: [(&str, Op); COUNT] = [
    ("consts", Op::Scalar(Scalar::Consts)),
    ("sqrt", Op::Scalar(Scalar::Sqrt)),
    ("abs", Op::Scalar(Scalar::Abs)),
    ("clamp_val", Op::Scalar(Scalar::ClampVal)),
    ("saturate", Op::Scalar(Scalar::Saturate)),
    ("from_f64", Op::Scalar(Scalar::FromF64)),
    ("to_f64", Op::Scalar(Scalar::ToF64)),
    ("from_int", Op::Scalar(Scalar::FromInt)),
    ("pid_abs", Op::Scalar(Scalar::PidAbs)),
    ("clamp_pid", Op::Scalar(Scalar::ClampPid)),
    ("zeros", Op::Matrix(Matrix::Made(Made::Zeros))),
    ("default", Op::Matrix(Matrix::Made(Made::Default))),
    ("filled", Op::Matrix(Matrix::Made(Made::Filled))),
    ("identity", Op::Matrix(Matrix::Made(Made::Identity))),
    ("transpose", Op::Matrix(Matrix::OfOne(OfOne::Transpose))),
    ("add_mat", Op::Matrix(Matrix::OfTwo(OfTwo::Add))),
    ("sub_mat", Op::Matrix(Matrix::OfTwo(OfTwo::Sub))),
    ("eq", Op::Matrix(Matrix::Equal)),
    ("scale", Op::Matrix(Matrix::OfOne(OfOne::Scale))),
    ("neg", Op::Matrix(Matrix::OfOne(OfOne::Neg))),
    ("frob_norm", Op::Matrix(Matrix::Number(Number::FrobNorm))),
    ("trace", Op::Matrix(Matrix::Number(Number::Trace))),
    ("get", Op::Matrix(Matrix::Number(Number::Get))),
    ("set", Op::Matrix(Matrix::OfOne(OfOne::Set))),
    ("matmul", Op::Matrix(Matrix::OfTwo(OfTwo::MatMul))),
    ("matvec", Op::Matrix(Matrix::OfTwo(OfTwo::MatVec))),
    ("outer", Op::Matrix(Matrix::OfTwo(OfTwo::Outer))),
    ("vec_add", Op::Matrix(Matrix::OfTwo(OfTwo::VecAdd))),
    ("vec_sub", Op::Matrix(Matrix::OfTwo(OfTwo::VecSub))),
    ("vec_dot", Op::Matrix(Matrix::Number(Number::VecDot))),
    ("vec_scale", Op::Matrix(Matrix::OfOne(OfOne::VecScale))),
    ("vec_norm", Op::Matrix(Matrix::Number(Number::VecNorm))),
    ("inv", Op::Matrix(Matrix::OfOne(OfOne::Inv))),
    ("cholesky", Op::Matrix(Matrix::OfOne(OfOne::Cholesky))),
    ("kf_new", Op::Linear(Filtering::Held)),
    ("kf_predict", Op::Linear(Filtering::Step(Letter::Predict))),
    ("kf_update", Op::Linear(Filtering::Step(Letter::Update))),
    ("kf_reset", Op::Linear(Filtering::Step(Letter::Reset))),
    ("kf_posvel", Op::PositionVelocity),
    ("kf_seq", Op::Linear(Filtering::Steps)),
    ("if_new", Op::Information(Filtering::New)),
    ("if_from_information", Op::Information(Filtering::Held)),
    (
        "if_predict",
        Op::Information(Filtering::Step(Letter::Predict)),
    ),
    (
        "if_update",
        Op::Information(Filtering::Step(Letter::Update)),
    ),
    ("if_state", Op::Information(Filtering::Step(Letter::State))),
    (
        "if_cov",
        Op::Information(Filtering::Step(Letter::Covariance)),
    ),
    ("if_reset", Op::Information(Filtering::Step(Letter::Reset))),
    ("if_fuse", Op::Information(Filtering::Step(Letter::Fuse))),
    ("if_seq", Op::Information(Filtering::Steps)),
    ("sq_new", Op::SquareRoot(Filtering::New)),
    ("sq_from_cholesky", Op::SquareRoot(Filtering::Held)),
    (
        "sq_predict",
        Op::SquareRoot(Filtering::Step(Letter::Predict)),
    ),
    ("sq_update", Op::SquareRoot(Filtering::Step(Letter::Update))),
    (
        "sq_cov",
        Op::SquareRoot(Filtering::Step(Letter::Covariance)),
    ),
    ("sq_reset", Op::SquareRoot(Filtering::Step(Letter::Reset))),
    ("sq_seq", Op::SquareRoot(Filtering::Steps)),
    ("imm_new", Op::Mixing(Mixing::New)),
    ("imm_mix", Op::Mixing(Mixing::Mix)),
    ("imm_probs", Op::Mixing(Mixing::Probabilities)),
    ("imm_fused", Op::Mixing(Mixing::Fused)),
    ("imm_prob", Op::Mixing(Mixing::Probability)),
    ("rts_store", Op::Smoothing(Smoothing::Store)),
    ("rts_get", Op::Smoothing(Smoothing::Get)),
    ("rts_smooth", Op::Smoothing(Smoothing::Smooth)),
    ("rts_stale", Op::Smoothing(Smoothing::Stale)),
];

// The place in the list of the operation of that name.
pub fn place_of(name: &[u8]) -> Option<usize>
    ensures { IfSome result (λ k. k < COUNT) }
{
    OPS.iter().position(|(known, _)| known.as_bytes() == name)
}
