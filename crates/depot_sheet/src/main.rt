// The depot sheet: a sheet on standard input, its report on standard output. What stands after the longest sheet and one byte more
// plays no part in the report, so the program answers for input of any length.
#![tactic(auto)]

use input::read_full;
use sheet::report;
use std::io;

// The report of a sheet, printed.
fn print_report(rt: &impl Print, input: &[u8]) -> io::Result<()> {
    let mut output = [0u8; 1600];
    let count = report(input, &mut output[..]).unwrap();
    rt.write_all(&output[..count])
}

fn main(rt: HostRuntime) -> io::Result<()> {
    let mut input = [0u8; 1418];
    let count = read_full(&mut rt.stdin(), &mut input)?;
    print_report(&rt, &input[..count])
}
