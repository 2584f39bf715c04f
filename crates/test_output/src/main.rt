// Reads cases from standard input, each a line with the lengths of a sheet and of an input in 8 columns, then the sheet and the input; prints for
// each what `readentry` prints.
#![tactic(auto)]

use columns::fields;
use loading::read_full;
use output::program::print;
use std::io;

// A sheet and an input, and what stands behind them.
#[derive(Clone, Copy)]
struct Case<'a> {
    sheet: &'a [u8],
    input: &'a [u8],
    behind: &'a [u8],
}

// The case at the start of a text; nothing where no case stands here whole.
fn first_case(text: &[u8]) -> Option<Case<'_>> {
    let [sheet_length, input_length] = fields::<2, 8>(text, 0)?;
    let (sheet, rest) = text.get(17..)?.split_at_checked(sheet_length as usize)?;
    let (input, behind) = rest.split_at_checked(input_length as usize)?;
    Some(Case {
        sheet,
        input,
        behind,
    })
}

// As many cases as there are, up to a hundred.
fn answer_all(rt: &impl Print, text: &[u8]) -> io::Result<()> {
    let mut rest = text;
    for _ in 0..100 {
        let Some(case) = first_case(rest) else {
            break;
        };
        print(rt, case.sheet, case.input)?;
        rest = case.behind;
    }
    Ok(())
}

fn main(rt: HostRuntime) -> io::Result<()> {
    let mut buffer = [0u8; 65536];
    let n = read_full(&mut rt.reader(), &mut buffer);
    answer_all(&rt, &buffer[..n])
}
