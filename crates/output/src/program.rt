// The program `readentry`: the sheet from the file sheet.txt, the input from standard input, the output to standard output.
ghost use Rattle.std.specs.Counts.{IsPrefixLen};

use crate::write_output;
use loading::load;
pub use loading::read_full;
use std::io;
use std::rt::Files;

// The output, with its length in the form that a part of the buffer asks for.
fn fill(sheet: &[u8], input: &[u8], out: &mut [u8]) -> usize
    ensures { IsPrefixLen result out.new }
{
    write_output(sheet, input, out)
}

// Prints the output for a sheet and an input.
pub fn print(rt: &impl Print, sheet: &[u8], input: &[u8]) -> io::Result<()> {
    let mut out = [0u8; 50209];
    let length = fill(sheet, input, &mut out);
    rt.write_all(&out[..length])
}

// A sheet has at most 6,682 bytes and an input at most 4,096: both buffers hold more, so that what is longer is refused.
pub fn run(rt: &(impl Files + Input + Print)) -> io::Result<()> {
    let mut sheet = [0u8; 6708];
    let sheet_length = load(rt, "sheet.txt", &mut sheet);
    let mut input = [0u8; 4097];
    let input_length = read_full(&mut rt.reader(), &mut input);
    print(rt, &sheet[..sheet_length], &input[..input_length])
}
