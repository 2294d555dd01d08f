// The picture of a duty: a depot sheet on standard input, an SVG file on standard output, or the sheet's refusal line. As in
// depot_sheet, 1,418 bytes decide.
#![tactic(auto)]

use input::read_full;
use picture::picture;
use std::io;

// The picture of a sheet, printed.
fn print_picture(rt: &impl Print, input: &[u8]) -> io::Result<()> {
    let mut output = [0u8; 32768];
    let count = picture(input, &mut output[..]).unwrap();
    rt.write_all(&output[..count])
}

fn main(rt: HostRuntime) -> io::Result<()> {
    let mut input = [0u8; 1418];
    let count = read_full(&mut rt.stdin(), &mut input)?;
    print_picture(&rt, &input[..count])
}
