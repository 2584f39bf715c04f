// The calls for programs in other languages.
#![tactic(auto)]

ghost use Rattle.std.specs.Prelude.{◌≤◌, ◌≡◌, Ok};
ghost use Rattle.schema.specs.Exported.{returned};
ghost use Rattle.grammar.specs.Promise.{told as read};
ghost use Rattle.archive.specs.Archive.{told as moves};
ghost use Rattle.opening.specs.Opening.{least_of};
ghost use Rattle.verdict.specs.Verdict.{numbers};
ghost use Rattle.reports.specs.Numbers.{WriterNumbers, CheckNumbers};
ghost use Rattle.entryreader.specs.Codes.{sheet_numbers, SheetNumbers, code_of, VerdictCode, JudgeNumbers, QuestionNumbers, CorrectionNumbers, FurtherNumbers, length_numbers, ShorthandNumbers};
ghost use Rattle.entryreader.specs.Archived.{StoreNumbers, RestoreNumbers};
ghost use Rattle.entryreader.specs.Opened.{opening_numbers, OpeningNumbers};

use grammar::refusal::Refusal;
use grammar::sheet::{Grammar, Rules, read_sheet};
use reports::{code, numbers_of, report, report_check, report_write};
use verdict::Judgement;

// Stores line 1 of a sheet behind a 0, and returns 0; or the number and the line of a refusal, and returns 100 plus the number.
fn report_sheet(sheet: Result<Grammar, Refusal>, out: &mut [u32; 4]) -> u32
    ensures returns { result ≡ returned (read sheet) }
    ensures reports { out.new ≡ sheet_numbers (read sheet) }
{
    match sheet {
        Ok(grammar) => {
            *out = [0, grammar.variables, grammar.start, grammar.endmarker];
            0
        }
        Err(refusal) => {
            *out = [refusal.number(), refusal.line(), 0, 0];
            code(Err(refusal.number()))
        }
    }
}

// Reads a sheet: 0, with 0, the count of variables, the start variable and the endmarker in the answer, and the rules' words; or 100 plus the number
// of a refusal, with its number and line in the answer, and the words unchanged.
pub fn entryreader_sheet(sheet: &[u8], answer: &mut [u32; 4], words: &mut Rules) -> u32
    ensures { SheetNumbers sheet.now answer.new words.old words.new result }
{
    let found = read_sheet(sheet, words);
    report_sheet(found, answer)
}

// The code of a verdict.
fn verdict_code(judgement: Judgement) -> u32
    ensures { result ≡ code_of (numbers (Ok judgement)) }
{
    match judgement {
        Judgement::Recognised(_, _) => 0,
        Judgement::Failure(_) => 1,
        Judgement::Loop(_, _, _) => 2,
        Judgement::Missing(_, _, _) => 3,
        Judgement::Partial(_, _) => 5,
    }
}

// The verdict on an input, over a table and a work slice of the call's own: its code, or 100 plus the number of a refusal.
pub fn entryreader_verdict(sheet: &[u8], input: &[u8]) -> u32
    ensures { VerdictCode sheet.now input.now result }
{
    let mut table = [0u32; 2048];
    let mut work = [0u32; 1024];
    let judgement = verdict::verdict(sheet, input, &mut table, &mut work);
    code(judgement.map(verdict_code).map_err(Refusal::number))
}

// The verdict on an input, over a lent table and a lent work slice: always 0, with the four numbers of the first line of `readentry` in the answer; a
// refusal too, as 9, its number, its line and 0, with table and work slice unchanged.
pub fn entryreader_judge(
    sheet: &[u8],
    input: &[u8],
    table: &mut [u32],
    work: &mut [u32],
    answer: &mut [u32; 4],
) -> u32
    ensures { JudgeNumbers sheet.now input.now table.old table.new work.old work.new answer.new result }
{
    let judgement = verdict::verdict(sheet, input, table, work);
    *answer = verdict::numbers_of(judgement);
    0
}

// A question about a variable at a position of the input, over a lent table and a lent work slice: 0, with the cell's code, the named
// variable, the named position and the count of decided cells in the answer; or 100 plus the number of a refusal, with nothing changed.
pub fn entryreader_question(
    sheet: &[u8],
    input: &[u8],
    variable: u32,
    position: u32,
    table: &mut [u32],
    work: &mut [u32],
    answer: &mut [u32; 4],
) -> u32
    ensures { QuestionNumbers sheet.now input.now variable position table.old table.new work.old work.new answer.old answer.new result }
{
    let found = memo::question(sheet, input, variable, position, table, work);
    report(found.map(numbers_of).map_err(Refusal::number), answer)
}

// A question about an input of which the byte at c was corrected, over a table that was kept of the old input: as the
// question, with the count of newly decided cells.
pub fn entryreader_correct(
    sheet: &[u8],
    old: &[u8],
    input: &[u8],
    variable: u32,
    position: u32,
    c: u32,
    table: &mut [u32],
    work: &mut [u32],
    answer: &mut [u32; 4],
) -> u32
    ensures { CorrectionNumbers sheet.now old.now input.now variable position c table.old table.new work.old work.new answer.old answer.new result }
{
    let found = correction::correct(sheet, old, input, variable, position, c, table, work);
    report(found.map(numbers_of).map_err(Refusal::number), answer)
}

// A further question about the same input, over a table that was kept of it and of which nothing is blanked: as the question, with the count of newly
// decided cells.
pub fn entryreader_further(
    sheet: &[u8],
    input: &[u8],
    variable: u32,
    position: u32,
    table: &mut [u32],
    work: &mut [u32],
    answer: &mut [u32; 4],
) -> u32
    ensures { FurtherNumbers sheet.now input.now variable position table.old table.new work.old work.new answer.old answer.new result }
{
    let found = correction::further(sheet, input, variable, position, table, work);
    report(found.map(numbers_of).map_err(Refusal::number), answer)
}

// The question, with its reading in a lent output: 0, with the question's four numbers and the count of lines in the answer; or 100 plus the number of
// a refusal, with nothing changed.
pub fn entryreader_write(
    sheet: &[u8],
    input: &[u8],
    variable: u32,
    position: u32,
    table: &mut [u32],
    work: &mut [u32],
    out: &mut [u8],
    answer: &mut [u32; 5],
) -> u32
    ensures { WriterNumbers sheet.now input.now variable position table.old table.new work.old work.new out.old out.new answer.old answer.new result }
{
    report_write(sheet, input, variable, position, table, work, out, answer)
}

// The checker on a reading for a variable at a position of the input: 0, with the code of the outcome that it claims (5 + q for success ending at q,
// 1 failure) and the end in its last line in the answer; or 100 plus the number of a refusal, with nothing changed.
pub fn entryreader_check(
    sheet: &[u8],
    input: &[u8],
    variable: u32,
    position: u32,
    reading: &[u8],
    answer: &mut [u32; 2],
) -> u32
    ensures { CheckNumbers sheet.now input.now variable position reading.now answer.old answer.new result }
{
    report_check(sheet, input, variable, position, reading, answer)
}

// The one number of a sheet that a text becomes: its length.
fn length_numbers(length: usize) -> [u32; 1]
    requires { length ≤ 10001 }
    ensures { result ≡ length_numbers length }
{
    [length as u32]
}

// The rule sheet of a text of the shorthand, at the front of the output: 0, with the sheet's length in the answer; or 100 plus the number of a
// refusal, with nothing changed.
pub fn entryreader_shorthand(text: &[u8], out: &mut [u8], answer: &mut [u32; 1]) -> u32
    ensures { ShorthandNumbers text.now out.old out.new answer.old answer.new result }
{
    let compiled = shorthand::compile(text, out);
    report(
        compiled.map(length_numbers).map_err(Refusal::number),
        answer,
    )
}

// 1 and the least number of bytes, or 0 and 0 where there is none.
fn opening_numbers(least: Option<u32>) -> [u32; 2]
    ensures { result ≡ opening_numbers (least_of least) }
{
    match least {
        Some(m) => [1, m],
        None => [0, 0],
    }
}

// The least opening that loops: 0, with 1 and its number of bytes in the answer, or 0 and 0 for a verdict that does not loop; or 100 plus the number of a
// refusal, with nothing changed.
pub fn entryreader_opening(
    sheet: &[u8],
    input: &[u8],
    table: &mut [u32],
    work: &mut [u32],
    answer: &mut [u32; 2],
) -> u32
    ensures { OpeningNumbers sheet.now input.now table.old table.new work.old work.new answer.old answer.new result }
{
    let found = opening::opening(sheet, input, table, work);
    report(found.map(opening_numbers).map_err(Refusal::number), answer)
}

// 0, or 100 plus the number of a refusal.
fn report_stored(stored: Result<(), Refusal>) -> u32
    ensures { result ≡ returned (moves stored) }
{
    code(stored.map(|()| 0).map_err(Refusal::number))
}

// Stores a table of so many variables, of an input of so many bytes, by position: 0, or 100 plus the number of a refusal, with nothing changed.
pub fn entryreader_store(variables: u32, length: u32, table: &[u32], stored: &mut [u32]) -> u32
    ensures { StoreNumbers variables length table.now stored.old stored.new result }
{
    let found = archive::store(variables, length, table, stored);
    report_stored(found)
}

// Restores a table that was stored by position: 0, or 100 plus the number of a refusal, with nothing changed.
pub fn entryreader_restore(variables: u32, length: u32, stored: &[u32], table: &mut [u32]) -> u32
    ensures { RestoreNumbers variables length stored.now table.old table.new result }
{
    let found = archive::restore(variables, length, stored, table);
    report_stored(found)
}
