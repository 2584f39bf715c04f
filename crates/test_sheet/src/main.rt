// Reads sheets from standard input, each after a line with its length in 8 columns, and prints a line
// for each, in fields of 8 columns: the number and the line of its refusal; or 0, V, the start variable
// and the endmarker byte.
#![tactic(auto)]

use columns::Cursor;
use grammar::sheet::read_sheet;
use loading::read_full;
use rows::write_field;
use std::io;

fn print_field(rt: &impl Print, x: u32) -> io::Result<()> {
    let mut field = [0u8; 8];
    write_field(&mut field, x);
    rt.write_all(&field)
}

fn print_answer(rt: &impl Print, s: &[u8]) -> io::Result<()> {
    let mut rules = [0u32; 256];
    match read_sheet(s, &mut rules) {
        Err(refusal) => {
            print_field(rt, refusal.number())?;
            print_field(rt, refusal.line())?;
        }
        Ok(grammar) => {
            print_field(rt, 0)?;
            print_field(rt, grammar.variables)?;
            print_field(rt, grammar.start)?;
            print_field(rt, grammar.endmarker)?;
        }
    }
    rt.write_all(b"\n")
}

// The sheet of the case at the start of a text, and what stands behind it; nothing where no case stands here.
fn first_case(text: &[u8]) -> Option<(&[u8], &[u8])> {
    let (length, _) = Cursor { at: 0 }.field::<8>(text)?;
    text.get(9..)?.split_at_checked(length as usize)
}

// As many cases as there are, up to a thousand.
fn answer_all(rt: &impl Print, text: &[u8]) -> io::Result<()> {
    let mut rest = text;
    for _ in 0..1000 {
        let Some((sheet, behind)) = first_case(rest) else {
            break;
        };
        print_answer(rt, sheet)?;
        rest = behind;
    }
    Ok(())
}

fn main(rt: HostRuntime) -> io::Result<()> {
    let mut buffer = [0u8; 65536];
    let n = read_full(&mut rt.reader(), &mut buffer);
    answer_all(&rt, &buffer[..n])
}
