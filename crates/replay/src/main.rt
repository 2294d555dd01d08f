// Replays a list of calls through the C functions of the library and compares each answer with the one in the list: pairs of
// lines on standard input, a call and the Rust's answer, in the line protocol of the comparison (compare/PROTOCOL.md). Printed
// are the pairs that disagree, and then how many calls of each operation agreed.
#![tactic(auto)]

ghost use Rattle.std.specs.Prelude.{◌<◌, ◌≤◌, length, IfSome};
ghost use Rattle.protocol.specs.Left.{left};

use input::read_full;
use protocol::given::Answer;
use protocol::names::{OPS, Op, place_of};
use protocol::values::Values;
use protocol::words::{cut, read_values};
use std::io;
use tally::Tally;

mod scalars;
mod tally;

// What is left of the answer given behind that of the call, if it begins with that.
fn answer<'a>(op: Op, words: Values<'_>, given: Answer<'a>) -> Option<Answer<'a>>
    ensures { IfSome result (λ a. left a < left given.entry) }
{
    match op {
        Op::Scalar(op) => scalars::answer(op, words, given),
        Op::Matrix(op) => replay_matrices::answer(op, words, given),
        Op::Linear(op) => replay_filters::answer(op, words, given),
        Op::PositionVelocity => replay_filters::position_velocity(words, given),
        Op::Information(op) => replay_information::answer(op, words, given),
        Op::SquareRoot(op) => replay_sqrt::answer(op, words, given),
        Op::Mixing(op) => replay_imm::answer(op, words, given),
        Op::Smoothing(op) => replay_smoothers::answer(op, words, given),
    }
}

// Whether the call's answer is the one given. A call that cannot be understood never agrees.
fn agrees(op: Op, call: &[u8], given: &[u8]) -> bool {
    let mut values = [0.0; 8192];
    let Some(count) = read_values(call, &mut values) else {
        return false;
    };
    let words = Values::new(&values[..count]);
    match answer(op, words, Answer::new(given)) {
        Some(left) => left.is_end(),
        None => false,
    }
}

// A pair of lines that disagree.
fn print_pair(rt: &impl Print, line: u64, call: &[u8], given: &[u8]) -> io::Result<()> {
    print!(rt; "line {line} differs: ")?;
    rt.write_all(call)?;
    print!(rt; "\n  given ")?;
    rt.write_all(given)?;
    println!(rt; "")
}

// The operation at that place in the list. A function of its own: where it stands with other code, the check of the list does not end.
fn op_at(k: usize) -> Option<Op> {
    let (_, op) = OPS.get(k)?;
    Some(*op)
}

// A call counted, and printed where it disagrees.
fn count(
    rt: &impl Print,
    tally: &mut Tally,
    line: u64,
    call: &[u8],
    given: &[u8],
) -> io::Result<()> {
    let (name, _) = cut(call, b' ');
    let place = place_of(name);
    let is_good = match place.and_then(op_at) {
        Some(op) => agrees(op, call, given),
        None => false,
    };
    tally.add(place, is_good);
    if is_good {
        Ok(())
    } else {
        print_pair(rt, line, call, given)
    }
}

// The first line of the list, and what follows it.
fn cut_line(list: &[u8]) -> (&[u8], &[u8])
    ensures within { length result.1.now ≤ length list.now }
    ensures less { 0 < length list.now → length result.1.now < length list.now }
{
    let (line, rest) = cut(list, b'\n');
    (line, rest.unwrap_or(b""))
}

// Pair after pair, to the end of the list.
fn replay(rt: &impl Print, list: &[u8], tally: &mut Tally) -> io::Result<()> {
    let mut rest = list;
    let mut line = 1;
    // A turn takes two lines.
    while !rest.is_empty() {
        let (call, after) = cut_line(rest);
        let (given, next) = cut_line(after);
        count(rt, tally, line, call, given)?;
        rest = next;
        line = line.wrapping_add(2);
    }
    Ok(())
}

fn replay_input(rt: HostRuntime, list: &mut [u8]) -> io::Result<()> {
    let mut tally = Tally::new();
    let length = read_full(&mut rt.stdin(), list)?;
    replay(&rt, &list[..length], &mut tally)?;
    tally.report(&rt)
}

// Lends the array as a slice; behind a reference its length asks no proof.
fn replay_in(rt: HostRuntime, list: &mut [u8; 4194304]) -> io::Result<()> {
    replay_input(rt, list)
}

// A longer list is cut, which the counts show.
fn main(rt: HostRuntime) -> io::Result<()> {
    let mut list = [0u8; 4194304];
    replay_in(rt, &mut list)
}
