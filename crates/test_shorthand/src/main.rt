// Compiles texts in shorthand, and asks over the sheets that they become. The files are made by tests/shorthand/make.py.
//
//     texts         texts, one after the other, good and bad
//     entries       entries, one after the other
//     requests.txt  a request a line: seven fields of 8 columns and byte 10
//
// The fields of a request: where its text starts in texts, the text's length, where its entry starts in entries, the entry's length, the
// length of the output, and the least and the greatest V that its sheet may have. A request that reaches out of its files or of the output
// prints nothing. The output is filled with byte 42 before the call.
//
// A request's answer is a line of fields of 8 columns and byte 10: the number of the request's line, the number of the refusal or 0, and
// whether all bytes behind the returned length, under a refusal all bytes, are unchanged (1 or 0). Where the text is accepted there are two
// fields more: whether V is as the request says, and whether the start variable is 1 and the endmarker 46. Then comes a line for each variable
// from 1 to the least V, the letters: the number of the request's line, the variable, and its outcome at each position of the entry, from 0 to
// its length: 5 plus the end for success, 1 failure, 2 loop, 3 missing, 0 a refusal.
//
// After the requests come four long texts that are made here, with the number 0.
#![tactic(auto)]

use columns::Cursor;
use finish::Answer;
use grammar::sheet::read_sheet;
use loading::load;
use rows::write_field;
use std::io;

// What stands in an output before a call.
const UNTOUCHED: u8 = 42;

// What is asked: a text and an entry, the length of the output, and the bounds of V.
#[derive(Clone, Copy)]
struct Request<'a> {
    text: &'a [u8],
    entry: &'a [u8],
    room: u32,
    least: u32,
    greatest: u32,
}

fn print_field(rt: &impl Print, x: u32) -> io::Result<()> {
    let mut field = [0u8; 8];
    write_field(&mut field, x);
    rt.write_all(&field)
}

// 1 where all bytes are untouched, else 0.
fn untouched(bytes: &[u8]) -> u32 {
    u32::from(bytes.iter().all(|b| *b == UNTOUCHED))
}

// The outcome of a variable at a position, as it is printed.
fn outcome(sheet: &[u8], entry: &[u8], variable: u32, position: u32) -> u32 {
    let mut table = [0u32; 8192];
    let mut work = [0u32; 4096];
    match memo::question(sheet, entry, variable, position, &mut table, &mut work) {
        Ok(Answer::Success(end, _)) => 5 + end % 65536,
        Ok(Answer::Failure(_)) => 1,
        Ok(Answer::Loop(..)) => 2,
        Ok(Answer::Missing(..)) => 3,
        Err(_) => 0,
    }
}

// The line of a variable.
fn print_outcomes(
    rt: &impl Print,
    number: u32,
    sheet: &[u8],
    entry: &[u8],
    variable: u32,
) -> io::Result<()> {
    print_field(rt, number)?;
    print_field(rt, variable)?;
    let last = (entry.len() % 65536) as u32;
    for position in 0..=last {
        print_field(rt, outcome(sheet, entry, variable, position))?;
    }
    rt.write_all(b"\n")
}

// What is printed of an accepted text behind the first three fields.
fn print_sheet(rt: &impl Print, number: u32, asked: &Request<'_>, sheet: &[u8]) -> io::Result<()> {
    let mut rules = [0u32; 256];
    let Ok(grammar) = read_sheet(sheet, &mut rules) else {
        return Ok(());
    };
    let bounds = asked.least..=asked.greatest;
    print_field(rt, u32::from(bounds.contains(&grammar.variables)))?;
    print_field(rt, u32::from(grammar.start == 1 && grammar.endmarker == 46))?;
    rt.write_all(b"\n")?;
    for variable in 1..=asked.least {
        print_outcomes(rt, number, sheet, asked.entry, variable)?;
    }
    Ok(())
}

// Compiles a text into an untouched output, and prints the answer; nothing where the output has no such room.
fn run(rt: &impl Print, number: u32, asked: &Request<'_>) -> io::Result<()> {
    let mut out = [UNTOUCHED; 8192];
    let Some(lent) = out.get_mut(..asked.room as usize) else {
        return Ok(());
    };
    print_field(rt, number)?;
    match shorthand::compile(asked.text, lent) {
        Err(refusal) => {
            print_field(rt, refusal.number())?;
            print_field(rt, untouched(&out))?;
            rt.write_all(b"\n")
        }
        Ok(length) => {
            print_field(rt, 0)?;
            print_field(rt, untouched(out.get(length..).unwrap_or(&[])))?;
            match out.get(..length) {
                Some(sheet) => print_sheet(rt, number, asked, sheet),
                None => Ok(()),
            }
        }
    }
}

// The seven numbers of a line; 0 for a field that holds none.
fn read_numbers(line: &[u8]) -> [u32; 7] {
    let mut numbers = [0; 7];
    for (i, number) in numbers.iter_mut().enumerate() {
        if let Some((x, _)) = (Cursor { at: 8 * i }).field::<8>(line) {
            *number = x;
        }
    }
    numbers
}

// The part of a text that starts so far in and is so long.
fn part(text: &[u8], start: u32, length: u32) -> Option<&[u8]> {
    text.get(start as usize..)?.get(..length as usize)
}

// The request of a line; nothing where it reaches out of the files.
fn read_request<'a>(line: &[u8], texts: &'a [u8], entries: &'a [u8]) -> Option<Request<'a>> {
    let [
        text,
        text_length,
        entry,
        entry_length,
        room,
        least,
        greatest,
    ] = read_numbers(line);
    Some(Request {
        text: part(texts, text, text_length)?,
        entry: part(entries, entry, entry_length)?,
        room,
        least,
        greatest,
    })
}

// Runs the request of each line of 57 bytes.
fn run_lines(rt: &impl Print, requests: &[u8], texts: &[u8], entries: &[u8]) -> io::Result<()> {
    for (i, line) in requests.chunks_exact(57).enumerate() {
        let number = (i % 99999999) as u32 + 1;
        if let Some(request) = read_request(line, texts, entries) {
            run(rt, number, &request)?;
        }
    }
    Ok(())
}

// Compiles `A=`, a byte again and again, and a last byte.
fn run_long(rt: &impl Print, byte: u8, last: u8) -> io::Result<()> {
    let mut text = [byte; 200000];
    text[0] = b'A';
    text[1] = b'=';
    text[199999] = last;
    let asked = Request {
        text: &text,
        entry: b"",
        room: 8192,
        least: 0,
        greatest: 0,
    };
    run(rt, 0, &asked)
}

fn main(rt: HostRuntime) -> io::Result<()> {
    let mut texts = [0u8; 65536];
    let mut entries = [0u8; 65536];
    let mut requests = [0u8; 65536];
    let texts_end = load(&rt, "texts", &mut texts);
    let entries_end = load(&rt, "entries", &mut entries);
    let requests_end = load(&rt, "requests.txt", &mut requests);
    run_lines(
        &rt,
        &requests[..requests_end],
        &texts[..texts_end],
        &entries[..entries_end],
    )?;
    run_long(&rt, b'/', b'\n')?;
    run_long(&rt, b'%', b'\n')?;
    run_long(&rt, b'/', b'/')?;
    run_long(&rt, b'%', b'%')
}
