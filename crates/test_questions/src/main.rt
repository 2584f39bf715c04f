// Runs the requests of questions.txt and prints what the calls answer. The files are made by tests/longer/make.py.
//
//     sheets.txt     rule sheets, one after the other
//     entries        entries, one after the other, of any bytes
//     questions.txt  a request a line: nine fields of 8 columns and byte 10
//
// The fields of a request: where its sheet starts in sheets.txt, the sheet's length, where its entry starts in entries, the entry's length,
// the variable, the place, the task, and two numbers x and y.
//
//     task 0, question    a table of x numbers and a work slice of y numbers are lent
//     task 1, machine     the budget is x, and a slice of y numbers is lent for the frames
//     task 2, reading     a table of x numbers, a work slice and an output of y bytes are lent; what is written is then checked
//     task 3, damage      a reading is written, its byte at x is made y, and it is checked
//     task 4, kept        as task 0, and the entry and the table are kept
//     task 5, correction  the byte at x of the kept entry is made y modulo 256, and the question is asked as a correction at x, with the kept
//                         entry as it was before; y / 256 numbers of the kept table and a work slice are lent
//     task 6, put         the number at x of the kept table is made y; nothing is asked
//     task 7, opening     as task 0, but for the opening that already loops, at the start variable and place 0
//     task 8, further     a further question about the kept entry; x numbers of the kept table and a work slice of y numbers are lent
//     task 9, blank       as task 4, but nothing is asked: the kept table is blank
//     task 10, store      x numbers of the kept table are stored by place in y numbers of the stored table; the variable is V, the place n
//     task 11, restore    x numbers of the stored table are taken back into y numbers of the kept table, with the same V and n
//     task 12, shown      a correction at x modulo 8192 of the first x / 8192 bytes of the kept entry, none of which is changed, with the
//                         request's entry as the old one; y / 256 numbers of the kept table and a work slice are lent
//     task 13, edit       the byte at x of the kept entry is made y; nothing is asked
//
// A cell is two numbers of a table and one of a work slice: with tasks 2, 5 and 12 the work slice has half as many numbers as the table,
// rounded up. What is kept lasts until the next task 4 or 9, so that corrections and further questions follow one another. Tasks 5 and 8 take
// as many bytes of the kept entry as the request's entry has; where x of task 5 is not below that number, no byte is changed and the call is
// made all the same. The stored table lasts until the next task 10. Behind a task 11 that is not refused the kept table holds what was stored;
// behind one that is refused, what it was filled with.
//
// An answer is a line of seven fields of 8 columns and byte 10. The first is the number of the request's line, the second is
//
//     0, question    code, named variable or refusal number, end or named place or refused line, count of cells, sum of the lent table
//     1, machine     code, refusal number, end or refused line, moves, 0
//     2, writer      code, named variable or refusal number, end or named place or refused line, lines, sum of the lent output
//     3, checker     code, refusal number, end or refused line, lines, 0
//     4, fault       the request's line is malformed or reaches out of its files or slices; the rest is 0
//     5, end         the number of bytes read of sheets.txt, entries and questions.txt, and two zeros
//     6, correction  as for a question; the count is of newly decided cells
//     7, put         three zeros, the number that stood there before, and 0
//     8, opening     code, refusal number, least opening or refused line, sum of the lent work slice if refused, sum of the lent table
//     9, further     as for a correction
//     10, blank      five zeros
//     11, store      code, refusal number, refused line, 0, sum of the lent stored table
//     12, restore    code, refusal number, refused line, 0, sum of the lent kept table
//     13, edit       three zeros, the byte that stood there before, and 0
//
// The codes: 0 success or done, 1 failure, 2 loop, 3 missing, 6 spent, 7 no frame, 8 no opening, 9 refused. Table and output are filled
// before each call but a correction and a further question, so that their sums also show what a call must leave unchanged; of two tables the
// one that is written to is filled. A table's sum is over outcomes and reaches alike.
#![tactic(auto)]

use backtrack::Ending;
use checker::{Claim, Rejection};
use columns::fields;
use finish::Answer;
use grammar::refusal::Refusal;
use loading::load;
use rows::write_row;
use std::{io, mem};
use writer::Written;

// What stands in a table and in an output before a call.
const UNTOUCHED_NUMBER: u32 = 77777;

const UNTOUCHED_BYTE: u8 = 42;

// A sum is below this number.
const MODULUS: u64 = 9999991;

// What is asked, in the order of the numbers.
#[derive(Clone, Copy)]
enum Task {
    Question,
    Machine,
    Reading,
    Damage,
    Kept,
    Correction,
    Put,
    Opening,
    Further,
    Blank,
    Store,
    Restore,
    Shown,
    Edit,
}

impl TryFrom<u32> for Task {
    type Error = u32;

    fn try_from(number: u32) -> Result<Task, u32> {
        Ok(match number {
            0 => Task::Question,
            1 => Task::Machine,
            2 => Task::Reading,
            3 => Task::Damage,
            4 => Task::Kept,
            5 => Task::Correction,
            6 => Task::Put,
            7 => Task::Opening,
            8 => Task::Further,
            9 => Task::Blank,
            10 => Task::Store,
            11 => Task::Restore,
            12 => Task::Shown,
            13 => Task::Edit,
            _ => return Err(number),
        })
    }
}

// A task on a sheet and an entry.
#[derive(Clone, Copy)]
struct Request<'a> {
    task: Task,
    sheet: &'a [u8],
    entry: &'a [u8],
    variable: u32,
    position: u32,
    x: u32,
    y: u32,
}

// What lasts from one request to the next. The entry may be one byte too long for the calls.
#[derive(Drop)]
struct Kept {
    entry: [u8; 4097],
    table: [u32; 65536],
    stored: [u32; 65536],
}

// What a line answers, in the order of the numbers.
#[derive(Clone, Copy)]
enum Kind {
    Question,
    Machine,
    Writer,
    Checker,
    Fault,
    End,
    Correction,
    Put,
    Opening,
    Further,
    Blank,
    Store,
    Restore,
    Edit,
}

// What an answer says first, with its number.
#[derive(Clone, Copy)]
enum Code {
    Done = 0,
    Failure = 1,
    Loop = 2,
    Missing = 3,
    Spent = 6,
    NoFrame = 7,
    NoOpening = 8,
    Refused = 9,
}

// Four numbers of an answer: code, variable or refusal number, place or line, count.
#[derive(Clone, Copy)]
struct Four(Code, u32, u32, u32);

// A line behind the number of its request: what it answers, and a sum.
#[derive(Clone, Copy)]
struct Line {
    kind: Kind,
    four: Four,
    sum: u32,
}

// The lines of an answer: behind a reading stands that of its check.
type Lines = (Line, Option<Line>);

const FAULT: Line = Line {
    kind: Kind::Fault,
    four: Four(Code::Done, 0, 0, 0),
    sum: 0,
};

impl From<Answer> for Four {
    fn from(answer: Answer) -> Four {
        match answer {
            Answer::Success(end, count) => Four(Code::Done, 0, end, count),
            Answer::Failure(count) => Four(Code::Failure, 0, 0, count),
            Answer::Loop(variable, position, count) => Four(Code::Loop, variable, position, count),
            Answer::Missing(variable, position, count) => {
                Four(Code::Missing, variable, position, count)
            }
        }
    }
}

impl From<Ending> for Four {
    fn from(ending: Ending) -> Four {
        match ending {
            Ending::Success(end, moves) => Four(Code::Done, 0, end, moves),
            Ending::Failure(moves) => Four(Code::Failure, 0, 0, moves),
            Ending::Missing(moves) => Four(Code::Missing, 0, 0, moves),
            Ending::Spent(moves) => Four(Code::Spent, 0, 0, moves),
            Ending::NoFrame(moves) => Four(Code::NoFrame, 0, 0, moves),
        }
    }
}

impl From<Claim> for Four {
    fn from(claim: Claim) -> Four {
        match claim {
            Claim::Success(end) => Four(Code::Done, 0, end, 0),
            Claim::Failure(end) => Four(Code::Failure, 0, end, 0),
        }
    }
}

impl From<Option<u32>> for Four {
    fn from(opening: Option<u32>) -> Four {
        match opening {
            Some(m) => Four(Code::Loop, 0, m, 0),
            None => Four(Code::NoOpening, 0, 0, 0),
        }
    }
}

impl From<()> for Four {
    fn from(_: ()) -> Four {
        Four(Code::Done, 0, 0, 0)
    }
}

impl From<Written> for Four {
    fn from(written: Written) -> Four {
        Four::from(written.answer).counting(written.lines)
    }
}

impl From<Refusal> for Four {
    fn from(refusal: Refusal) -> Four {
        Four(Code::Refused, refusal.number(), refusal.line(), 0)
    }
}

impl From<Rejection> for Four {
    fn from(rejection: Rejection) -> Four {
        let line = low_digits(rejection.line());
        Four(Code::Refused, rejection.number(), line, 0)
    }
}

// What a call answers, or why it is refused.
impl<T: Into<Four>, E: Into<Four>> From<Result<T, E>> for Four {
    fn from(told: Result<T, E>) -> Four {
        match told {
            Ok(answer) => answer.into(),
            Err(refusal) => refusal.into(),
        }
    }
}

impl Four {
    // With another count.
    fn counting(self, count: u32) -> Four {
        Four(self.0, self.1, self.2, count)
    }
}

// Prints a line: the number of a request, what is answered, five numbers.
fn print_fields(rt: &impl Print, fields: &[u32; 7]) -> io::Result<()> {
    let mut row = [0u8; 57];
    write_row(&mut row, 8, fields);
    rt.write_all(&row)
}

fn print_line(rt: &impl Print, number: u32, line: Line) -> io::Result<()> {
    let Four(code, name, place, count) = line.four;
    let kind = line.kind as u32;
    print_fields(
        rt,
        &[number, kind, code as u32, name, place, count, line.sum],
    )
}

// The sum of numbers: each counts by its place.
fn sum_of<T: Copy + Into<u32>>(numbers: &[T]) -> u32 {
    let mut sum: u64 = 0;
    for x in numbers {
        let x: u32 = (*x).into();
        sum = (257 * sum + u64::from(x)) % MODULUS;
    }
    sum as u32
}

// How many cells have so many numbers of a table, rounded up.
fn cells_of(numbers: usize) -> usize {
    numbers - numbers / 2
}

// The last eight digits of a number.
fn low_digits(x: usize) -> u32 {
    (x % 100000000) as u32
}

// Tasks 0 and 4, with the lent slices.
fn question(asked: &Request<'_>, table: &mut [u32], work: &mut [u32]) -> Line {
    table.fill(UNTOUCHED_NUMBER);
    let answer = memo::question(
        asked.sheet,
        asked.entry,
        asked.variable,
        asked.position,
        table,
        work,
    );
    Line {
        kind: Kind::Question,
        four: Four::from(answer),
        sum: sum_of(table),
    }
}

// Task 7, with the lent slices. Under a refusal the count is the sum of the work slice, which must be as it was.
fn find_opening(asked: &Request<'_>, table: &mut [u32], work: &mut [u32]) -> Line {
    table.fill(UNTOUCHED_NUMBER);
    let mut four = Four::from(opening::opening(asked.sheet, asked.entry, table, work));
    if let Code::Refused = four.0 {
        four = four.counting(sum_of(work));
    }
    Line {
        kind: Kind::Opening,
        four,
        sum: sum_of(table),
    }
}

// Task 8, with the lent slices.
fn further(asked: &Request<'_>, table: &mut [u32], work: &mut [u32]) -> Line {
    let answer = correction::further(
        asked.sheet,
        asked.entry,
        asked.variable,
        asked.position,
        table,
        work,
    );
    Line {
        kind: Kind::Further,
        four: Four::from(answer),
        sum: sum_of(table),
    }
}

// Task 9, with the lent table.
fn blank(table: &mut [u32]) -> Line {
    table.fill(0);
    Line {
        kind: Kind::Blank,
        four: Four(Code::Done, 0, 0, 0),
        sum: sum_of(table),
    }
}

// Tasks 0, 4, 7, 8 and 9.
fn run_question(asked: &Request<'_>, table: &mut [u32], work: &mut [u32]) -> Option<Line> {
    let table = table.get_mut(..asked.x as usize)?;
    let work = work.get_mut(..asked.y as usize)?;
    Some(match asked.task {
        Task::Opening => find_opening(asked, table, work),
        Task::Further => further(asked, table, work),
        Task::Blank => blank(table),
        _ => question(asked, table, work),
    })
}

// Tasks 0 and 7, with a table of 32,768 cells.
fn run_fresh(asked: &Request<'_>, work: &mut [u32]) -> Option<Line> {
    let mut table = [0u32; 65536];
    run_question(asked, &mut table, work)
}

// Task 1.
fn run_machine(asked: &Request<'_>, frames: &mut [u32]) -> Option<Line> {
    let frames = frames.get_mut(..asked.y as usize)?;
    let ending = backtrack::run(
        asked.sheet,
        asked.entry,
        asked.variable,
        asked.position,
        frames,
        asked.x,
    );
    Some(Line {
        kind: Kind::Machine,
        four: Four::from(ending),
        sum: 0,
    })
}

// Checks the first lines of an output as a reading.
fn check(asked: &Request<'_>, out: &[u8], lines: u32) -> Line {
    let Some(reading) = out.get(..49 * lines as usize) else {
        return FAULT;
    };
    let claim = checker::check(
        asked.sheet,
        asked.entry,
        asked.variable,
        asked.position,
        reading,
    );
    Line {
        kind: Kind::Checker,
        four: Four::from(claim).counting(lines),
        sum: 0,
    }
}

// Writes a reading: the line about it, with the count of its lines.
fn write(asked: &Request<'_>, table: &mut [u32], work: &mut [u32], out: &mut [u8]) -> Line {
    out.fill(UNTOUCHED_BYTE);
    let written = writer::write(
        asked.sheet,
        asked.entry,
        asked.variable,
        asked.position,
        table,
        work,
        out,
    );
    Line {
        kind: Kind::Writer,
        four: Four::from(written),
        sum: sum_of(out),
    }
}

// Task 2.
fn run_reading(
    asked: &Request<'_>,
    table: &mut [u32],
    work: &mut [u32],
    out: &mut [u8],
) -> Option<Lines> {
    let table = table.get_mut(..asked.x as usize)?;
    let work = work.get_mut(..cells_of(asked.x as usize))?;
    let out = out.get_mut(..asked.y as usize)?;
    let line = write(asked, table, work, out);
    Some((line, Some(check(asked, out, line.four.3))))
}

// Checks a reading of which one byte is made another.
fn check_damaged(asked: &Request<'_>, out: &mut [u8], lines: u32) -> Option<Line> {
    let byte = out.get_mut(asked.x as usize)?;
    *byte = u8::try_from(asked.y).ok()?;
    Some(check(asked, out, lines))
}

// Task 3.
fn run_damage(asked: &Request<'_>, table: &mut [u32], work: &mut [u32], out: &mut [u8]) -> Lines {
    let line = write(asked, table, work, out);
    let checked = check_damaged(asked, out, line.four.3);
    (line, Some(checked.unwrap_or(FAULT)))
}

// Tasks 2 and 3, with a table of 32,768 cells and an output.
fn run_written(asked: &Request<'_>, work: &mut [u32]) -> Option<Lines> {
    let mut table = [0u32; 65536];
    let mut out = [0u8; 262144];
    match asked.task {
        Task::Damage => Some(run_damage(asked, &mut table, work, &mut out)),
        _ => run_reading(asked, &mut table, work, &mut out),
    }
}

// Tasks 4 and 9.
fn run_kept(asked: &Request<'_>, kept: &mut Kept, work: &mut [u32]) -> Option<Line> {
    let entry = kept.entry.get_mut(..asked.entry.len())?;
    entry.copy_from_slice(asked.entry);
    run_question(asked, &mut kept.table, work)
}

// A correction at c of an old entry.
fn run_correction(
    asked: &Request<'_>,
    old: &[u8],
    c: u32,
    table: &mut [u32],
    work: &mut [u32],
) -> Option<Line> {
    let lent = (asked.y / 256) as usize;
    let table = table.get_mut(..lent)?;
    let work = work.get_mut(..cells_of(lent))?;
    let answer = correction::correct(
        asked.sheet,
        old,
        asked.entry,
        asked.variable,
        asked.position,
        c,
        table,
        work,
    );
    Some(Line {
        kind: Kind::Correction,
        four: Four::from(answer),
        sum: sum_of(table),
    })
}

// Task 5: the entry as it was is shown.
fn run_change(asked: &Request<'_>, kept: &mut Kept, work: &mut [u32]) -> Option<Line> {
    let old = kept.entry;
    let old = old.get(..asked.entry.len())?;
    let entry = kept.entry.get_mut(..asked.entry.len())?;
    if let Some(byte) = entry.get_mut(asked.x as usize) {
        *byte = (asked.y % 256) as u8;
    }
    let changed = Request { entry, ..*asked };
    run_correction(&changed, old, asked.x, &mut kept.table, work)
}

// Task 12.
fn run_shown(asked: &Request<'_>, kept: &mut Kept, work: &mut [u32]) -> Option<Line> {
    let entry = kept.entry.get(..(asked.x / 8192) as usize)?;
    let shown = Request { entry, ..*asked };
    run_correction(&shown, asked.entry, asked.x % 8192, &mut kept.table, work)
}

// Task 8.
fn run_further(asked: &Request<'_>, kept: &mut Kept, work: &mut [u32]) -> Option<Line> {
    let entry = kept.entry.get(..asked.entry.len())?;
    let again = Request { entry, ..*asked };
    run_question(&again, &mut kept.table, work)
}

// Task 6.
fn run_put(asked: &Request<'_>, kept: &mut Kept) -> Option<Line> {
    let number = kept.table.get_mut(asked.x as usize)?;
    let before = mem::replace(number, asked.y);
    Some(Line {
        kind: Kind::Put,
        four: Four(Code::Done, 0, 0, before),
        sum: 0,
    })
}

// Task 13.
fn run_edit(asked: &Request<'_>, kept: &mut Kept) -> Option<Line> {
    let byte = kept.entry.get_mut(asked.x as usize)?;
    let before = mem::replace(byte, u8::try_from(asked.y).ok()?);
    Some(Line {
        kind: Kind::Edit,
        four: Four(Code::Done, 0, 0, u32::from(before)),
        sum: 0,
    })
}

// Task 10.
fn run_store(asked: &Request<'_>, kept: &mut Kept) -> Option<Line> {
    let table = kept.table.get(..asked.x as usize)?;
    let stored = kept.stored.get_mut(..asked.y as usize)?;
    stored.fill(UNTOUCHED_NUMBER);
    let answer = archive::store(asked.variable, asked.position, table, stored);
    Some(Line {
        kind: Kind::Store,
        four: Four::from(answer),
        sum: sum_of(stored),
    })
}

// Task 11.
fn run_restore(asked: &Request<'_>, kept: &mut Kept) -> Option<Line> {
    let stored = kept.stored.get(..asked.x as usize)?;
    let table = kept.table.get_mut(..asked.y as usize)?;
    table.fill(UNTOUCHED_NUMBER);
    let answer = archive::restore(asked.variable, asked.position, stored, table);
    Some(Line {
        kind: Kind::Restore,
        four: Four::from(answer),
        sum: sum_of(table),
    })
}

// Runs a request, over slices of its own and what is kept; nothing where it reaches out of a slice. The work slice has twice the numbers that the
// cells of a table need, for the machine's frames.
fn run(asked: &Request<'_>, kept: &mut Kept) -> Option<Lines> {
    let mut work = [UNTOUCHED_NUMBER; 65536];
    let line = match asked.task {
        Task::Reading | Task::Damage => return run_written(asked, &mut work),
        Task::Question | Task::Opening => run_fresh(asked, &mut work),
        Task::Machine => run_machine(asked, &mut work),
        Task::Kept | Task::Blank => run_kept(asked, kept, &mut work),
        Task::Correction => run_change(asked, kept, &mut work),
        Task::Further => run_further(asked, kept, &mut work),
        Task::Shown => run_shown(asked, kept, &mut work),
        Task::Put => run_put(asked, kept),
        Task::Edit => run_edit(asked, kept),
        Task::Store => run_store(asked, kept),
        Task::Restore => run_restore(asked, kept),
    };
    Some((line?, None))
}

// The nine numbers of a line; nothing where the line is malformed.
fn read_numbers(line: &[u8]) -> Option<[u32; 9]> {
    if line.len() != 73 || line[72] != b'\n' {
        return None;
    }
    fields::<9, 8>(line, 0)
}

// The part of a text that starts so far in and is so long.
fn part(text: &[u8], start: u32, length: u32) -> Option<&[u8]> {
    text.get(start as usize..)?.get(..length as usize)
}

// The request of a line; nothing where the line is malformed or reaches out of the files.
fn read_request<'a>(line: &[u8], sheets: &'a [u8], entries: &'a [u8]) -> Option<Request<'a>> {
    let numbers = read_numbers(line)?;
    let [
        sheet,
        sheet_length,
        entry,
        entry_length,
        variable,
        position,
        task,
        x,
        y,
    ] = numbers;
    Some(Request {
        task: Task::try_from(task).ok()?,
        sheet: part(sheets, sheet, sheet_length)?,
        entry: part(entries, entry, entry_length)?,
        variable,
        position,
        x,
        y,
    })
}

// Runs the request of a line.
fn run_line(line: &[u8], sheets: &[u8], entries: &[u8], kept: &mut Kept) -> Option<Lines> {
    let request = read_request(line, sheets, entries)?;
    run(&request, kept)
}

// Runs the request of each line.
fn run_lines(rt: &impl Print, questions: &[u8], sheets: &[u8], entries: &[u8]) -> io::Result<()> {
    let mut kept = Kept {
        entry: [0; 4097],
        table: [0; 65536],
        stored: [0; 65536],
    };
    for (i, line) in questions.chunks(73).enumerate() {
        let number = (i % 99999999) as u32 + 1;
        let (first, second) = run_line(line, sheets, entries, &mut kept).unwrap_or((FAULT, None));
        print_line(rt, number, first)?;
        if let Some(line) = second {
            print_line(rt, number, line)?;
        }
    }
    Ok(())
}

// Runs all requests, and prints how many bytes were read of each file.
fn run_all(rt: &impl Print, questions: &[u8], sheets: &[u8], entries: &[u8]) -> io::Result<()> {
    run_lines(rt, questions, sheets, entries)?;
    let end = Kind::End as u32;
    let sheets_end = low_digits(sheets.len());
    let entries_end = low_digits(entries.len());
    let questions_end = low_digits(questions.len());
    print_fields(rt, &[0, end, sheets_end, entries_end, questions_end, 0, 0])
}

// A file that is longer than its buffer is cut, which the last line of the output shows.
fn main(rt: HostRuntime) -> io::Result<()> {
    let mut sheets = [0u8; 262144];
    let mut entries = [0u8; 262144];
    let mut questions = [0u8; 262144];
    let sheets_end = load(&rt, "sheets.txt", &mut sheets);
    let entries_end = load(&rt, "entries", &mut entries);
    let questions_end = load(&rt, "questions.txt", &mut questions);
    run_all(
        &rt,
        &questions[..questions_end],
        &sheets[..sheets_end],
        &entries[..entries_end],
    )
}
