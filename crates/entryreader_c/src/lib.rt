// The static library for programs in other languages: each call is the function of its name in `entryreader`, with the same clauses.
#![tactic(auto)]

ghost use Rattle.reports.specs.Numbers.{WriterNumbers, CheckNumbers};
ghost use Rattle.entryreader.specs.Codes.{SheetNumbers, VerdictCode, JudgeNumbers, QuestionNumbers, CorrectionNumbers, FurtherNumbers, ShorthandNumbers};
ghost use Rattle.entryreader.specs.Archived.{StoreNumbers, RestoreNumbers};
ghost use Rattle.entryreader.specs.Opened.{OpeningNumbers};

use grammar::sheet::Rules;

#[unsafe(no_mangle)]
pub extern "C" fn entryreader_sheet(sheet: &[u8], answer: &mut [u32; 4], words: &mut Rules) -> u32
    ensures { SheetNumbers sheet.now answer.new words.old words.new result }
{
    entryreader::entryreader_sheet(sheet, answer, words)
}

#[unsafe(no_mangle)]
pub extern "C" fn entryreader_verdict(sheet: &[u8], input: &[u8]) -> u32
    ensures { VerdictCode sheet.now input.now result }
{
    entryreader::entryreader_verdict(sheet, input)
}

#[unsafe(no_mangle)]
pub extern "C" fn entryreader_judge(
    sheet: &[u8],
    input: &[u8],
    table: &mut [u32],
    work: &mut [u32],
    answer: &mut [u32; 4],
) -> u32
    ensures { JudgeNumbers sheet.now input.now table.old table.new work.old work.new answer.new result }
{
    entryreader::entryreader_judge(sheet, input, table, work, answer)
}

#[unsafe(no_mangle)]
pub extern "C" fn entryreader_question(
    sheet: &[u8],
    input: &[u8],
    variable: u32,
    position: u32,
    table: &mut [u32],
    work: &mut [u32],
    answer: &mut [u32; 4],
) -> u32
    ensures { QuestionNumbers sheet.now input.now variable position table.old table.new work.old work.new answer.old answer.new result }
{
    entryreader::entryreader_question(sheet, input, variable, position, table, work, answer)
}

#[unsafe(no_mangle)]
pub extern "C" fn entryreader_correct(
    sheet: &[u8],
    old: &[u8],
    input: &[u8],
    variable: u32,
    position: u32,
    c: u32,
    table: &mut [u32],
    work: &mut [u32],
    answer: &mut [u32; 4],
) -> u32
    ensures { CorrectionNumbers sheet.now old.now input.now variable position c table.old table.new work.old work.new answer.old answer.new result }
{
    entryreader::entryreader_correct(
        sheet, old, input, variable, position, c, table, work, answer,
    )
}

#[unsafe(no_mangle)]
pub extern "C" fn entryreader_further(
    sheet: &[u8],
    input: &[u8],
    variable: u32,
    position: u32,
    table: &mut [u32],
    work: &mut [u32],
    answer: &mut [u32; 4],
) -> u32
    ensures { FurtherNumbers sheet.now input.now variable position table.old table.new work.old work.new answer.old answer.new result }
{
    entryreader::entryreader_further(sheet, input, variable, position, table, work, answer)
}

#[unsafe(no_mangle)]
pub extern "C" fn entryreader_write(
    sheet: &[u8],
    input: &[u8],
    variable: u32,
    position: u32,
    table: &mut [u32],
    work: &mut [u32],
    out: &mut [u8],
    answer: &mut [u32; 5],
) -> u32
    ensures { WriterNumbers sheet.now input.now variable position table.old table.new work.old work.new out.old out.new answer.old answer.new result }
{
    entryreader::entryreader_write(sheet, input, variable, position, table, work, out, answer)
}

#[unsafe(no_mangle)]
pub extern "C" fn entryreader_check(
    sheet: &[u8],
    input: &[u8],
    variable: u32,
    position: u32,
    reading: &[u8],
    answer: &mut [u32; 2],
) -> u32
    ensures { CheckNumbers sheet.now input.now variable position reading.now answer.old answer.new result }
{
    entryreader::entryreader_check(sheet, input, variable, position, reading, answer)
}

#[unsafe(no_mangle)]
pub extern "C" fn entryreader_shorthand(text: &[u8], out: &mut [u8], answer: &mut [u32; 1]) -> u32
    ensures { ShorthandNumbers text.now out.old out.new answer.old answer.new result }
{
    entryreader::entryreader_shorthand(text, out, answer)
}

#[unsafe(no_mangle)]
pub extern "C" fn entryreader_opening(
    sheet: &[u8],
    input: &[u8],
    table: &mut [u32],
    work: &mut [u32],
    answer: &mut [u32; 2],
) -> u32
    ensures { OpeningNumbers sheet.now input.now table.old table.new work.old work.new answer.old answer.new result }
{
    entryreader::entryreader_opening(sheet, input, table, work, answer)
}

#[unsafe(no_mangle)]
pub extern "C" fn entryreader_store(
    variables: u32,
    length: u32,
    table: &[u32],
    stored: &mut [u32],
) -> u32
    ensures { StoreNumbers variables length table.now stored.old stored.new result }
{
    entryreader::entryreader_store(variables, length, table, stored)
}

#[unsafe(no_mangle)]
pub extern "C" fn entryreader_restore(
    variables: u32,
    length: u32,
    stored: &[u32],
    table: &mut [u32],
) -> u32
    ensures { RestoreNumbers variables length stored.now table.old table.new result }
{
    entryreader::entryreader_restore(variables, length, stored, table)
}
