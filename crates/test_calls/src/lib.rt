// The machine, the writer and the checker for tests and benchmarks in other languages.
// Each call returns 0 with its numbers in `answer`, or 100 plus the number of a refusal, with everything lent to it unchanged.
#![tactic(auto)]

ghost use Rattle.std.specs.Prelude.{◌≡◌, ◌≤◌};
ghost use Rattle.backtrack.specs.Run.{ending_says};
ghost use Rattle.reports.specs.Numbers.{WriterNumbers, CheckNumbers};
ghost use Rattle.test_calls.specs.Numbers.{ran_code, run_numbers, RunNumbers};

use backtrack::Ending;
use cells::Cell;
use grammar::refusal::Refusal;
use reports::{report, report_check, report_write};

// The code of a run whose moves are spent.
const SPENT: u32 = 10000;

// The code of a run that lacks a frame.
const NO_FRAME: u32 = 10001;

// The three numbers of a run's ending.
fn numbers_of(ending: Ending) -> [u32; 3]
    requires { ran_code (ending_says ending) ≤ 10001 }
    ensures { result ≡ run_numbers (ending_says ending) }
{
    match ending {
        Ending::Success(end, moves) => [Cell::SUCCESS.0 + end, end, moves],
        Ending::Failure(moves) => [Cell::FAILURE.0, 0, moves],
        Ending::Missing(moves) => [Cell::MISSING.0, 0, moves],
        Ending::Spent(moves) => [SPENT, 0, moves],
        Ending::NoFrame(moves) => [NO_FRAME, 0, moves],
    }
}

// The machine's run on a variable at a position of the input, over lent frames. The answer: the outcome's code (5 + q for success ending at q,
// 1 failure, 3 missing, 10,000 spent, 10,001 no frame), the end on success or else 0, the moves.
pub fn test_run(
    sheet: &[u8],
    input: &[u8],
    variable: u32,
    position: u32,
    frames: &mut [u32],
    budget: u32,
    answer: &mut [u32; 3],
) -> u32
    ensures { RunNumbers sheet.now input.now variable position frames.old frames.new budget answer.old answer.new result }
{
    let found = backtrack::run(sheet, input, variable, position, frames, budget);
    report(found.map(numbers_of).map_err(Refusal::number), answer)
}

// The writer's question about a variable at a position of the input, over a lent table, a lent work slice and a lent output. The answer: the
// cell's code, the named variable, the named position, the count of decided cells, the count of lines.
pub fn test_write(
    sheet: &[u8],
    input: &[u8],
    variable: u32,
    position: u32,
    table: &mut [u32],
    work: &mut [u32],
    out: &mut [u8],
    answer: &mut [u32; 5],
) -> u32
    ensures { WriterNumbers sheet.now input.now variable position table.old table.new work.old work.new out.old out.new answer.old answer.new result }
{
    report_write(sheet, input, variable, position, table, work, out, answer)
}

// The checker on a reading for a variable at a position of the input. The answer: the code of the outcome that it claims (5 + q for success ending
// at q, 1 failure), and the end in its last line.
pub fn test_check(
    sheet: &[u8],
    input: &[u8],
    variable: u32,
    position: u32,
    reading: &[u8],
    answer: &mut [u32; 2],
) -> u32
    ensures { CheckNumbers sheet.now input.now variable position reading.now answer.old answer.new result }
{
    report_check(sheet, input, variable, position, reading, answer)
}
