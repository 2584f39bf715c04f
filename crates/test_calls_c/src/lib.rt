// The static library for tests and benchmarks in other languages: each call is the function of its name in `test_calls`, with the same clauses.
#![tactic(auto)]

ghost use Rattle.reports.specs.Numbers.{WriterNumbers, CheckNumbers};
ghost use Rattle.test_calls.specs.Numbers.{RunNumbers};

#[unsafe(no_mangle)]
pub extern "C" fn test_run(
    sheet: &[u8],
    input: &[u8],
    variable: u32,
    position: u32,
    frames: &mut [u32],
    budget: u32,
    answer: &mut [u32; 3],
) -> u32
    ensures { RunNumbers sheet.now input.now variable position frames.old frames.new budget answer.old answer.new result }
{
    test_calls::test_run(sheet, input, variable, position, frames, budget, answer)
}

#[unsafe(no_mangle)]
pub extern "C" fn test_write(
    sheet: &[u8],
    input: &[u8],
    variable: u32,
    position: u32,
    table: &mut [u32],
    work: &mut [u32],
    out: &mut [u8],
    answer: &mut [u32; 5],
) -> u32
    ensures { WriterNumbers sheet.now input.now variable position table.old table.new work.old work.new out.old out.new answer.old answer.new result }
{
    test_calls::test_write(sheet, input, variable, position, table, work, out, answer)
}

#[unsafe(no_mangle)]
pub extern "C" fn test_check(
    sheet: &[u8],
    input: &[u8],
    variable: u32,
    position: u32,
    reading: &[u8],
    answer: &mut [u32; 2],
) -> u32
    ensures { CheckNumbers sheet.now input.now variable position reading.now answer.old answer.new result }
{
    test_calls::test_check(sheet, input, variable, position, reading, answer)
}
