// The whole output of the program `readentry`.
#![tactic(auto)]

ghost use Rattle.std.specs.Prelude.{length};
ghost use Rattle.output.specs.Output.{StartOf, Certificate, OutputPromise};

use grammar::sheet::read_sheet;
use rows::write_row;
use verdict::numbers_of;
use writer::write;

pub mod program;

// The code of a verdict that is refused.
const REFUSED: u32 = 9;

// The start variable of a sheet; 0 where the sheet is refused.
fn start_of(sheet: &[u8]) -> u32
    ensures { StartOf sheet.now result }
{
    let mut rules = [0u32; 256];
    read_sheet(sheet, &mut rules).map_or(0, |grammar| grammar.start)
}

// Writes the certificate of a verdict that is not refused; the count of its lines.
fn certificate(
    sheet: &[u8],
    input: &[u8],
    code: u32,
    table: &mut [u32],
    work: &mut [u32],
    out: &mut [u8],
) -> u32
    ensures { Certificate sheet.now input.now code (length table.old) (length work.old) out.old out.new result }
{
    if code == REFUSED {
        return 0;
    }
    let start = start_of(sheet);
    let written = write(sheet, input, start, 0, table, work, out);
    written.map_or(0, |written| written.lines)
}

// Writes the output of the program for a sheet and an input, and gives its length. A slice of under 33 + 50,176 bytes is left as it is.
pub fn write_output(sheet: &[u8], input: &[u8], out: &mut [u8]) -> usize
    ensures { OutputPromise sheet.now input.now out.old out.new result }
{
    if out.len() < 50209 {
        return 0;
    }
    let mut table = [0u32; 2048];
    let mut work = [0u32; 1024];
    let four = numbers_of(verdict::verdict(sheet, input, &mut table, &mut work));
    let code = four[0];
    write_row(&mut out[0..33], 8, &[code, four[1], four[2], four[3]]);
    let lines = certificate(sheet, input, code, &mut table, &mut work, &mut out[33..]);
    33 + 49 * lines as usize
}
