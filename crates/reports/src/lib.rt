// The numbers of an answer, of a written reading and of a claim, for programs in other languages.
#![tactic(auto)]

ghost use Rattle.std.specs.Prelude.{◌≡◌, ◌≤◌, IfErr};
ghost use Rattle.schema.specs.Exported.{returned, reported};
ghost use Rattle.finish.specs.Reply.{reply_of};
ghost use Rattle.checker.specs.Checker.{claim_says};
ghost use Rattle.reports.specs.Numbers.{handed_over, number_of, reply_code, question_numbers, writer_numbers, WriterNumbers, claim_code, claim_numbers, CheckNumbers};

use cells::Cell;
use checker::{Claim, Rejection};
use finish::Answer;
use grammar::refusal::Refusal;
use writer::Written;

// The number of an answer, or 100 plus the number of a refusal.
pub fn code(answer: Result<u32, u32>) -> u32
    requires { IfErr answer (λ number. number ≤ 26) }
    ensures { result ≡ number_of answer }
{
    match answer {
        Ok(number) => number,
        Err(number) => 100 + number,
    }
}

// Stores the numbers of an answer, and returns 0; or returns 100 plus the number of a refusal, and stores nothing.
pub fn report<const N: usize>(answer: Result<[u32; N], u32>, out: &mut [u32; N]) -> u32
    requires { IfErr answer (λ number. number ≤ 26) }
    ensures returns { result ≡ returned (handed_over answer.entry) }
    ensures reports { out.new ≡ reported (λ numbers. numbers) out.old (handed_over answer.entry) }
{
    match answer {
        Ok(numbers) => {
            *out = numbers;
            0
        }
        Err(number) => code(Err(number)),
    }
}

// The four numbers of an answer.
pub fn numbers_of(answer: Answer) -> [u32; 4]
    requires { reply_code (reply_of answer) ≤ 10001 }
    ensures { result ≡ question_numbers (reply_of answer) }
{
    match answer {
        Answer::Success(end, count) => [Cell::SUCCESS.0 + end, 0, 0, count],
        Answer::Failure(count) => [Cell::FAILURE.0, 0, 0, count],
        Answer::Loop(variable, position, count) => [Cell::LOOP.0, variable, position, count],
        Answer::Missing(variable, position, count) => [Cell::MISSING.0, variable, position, count],
    }
}

// The four numbers of an answer, and the count of lines.
fn with_lines(written: Written) -> [u32; 5]
    requires { reply_code (reply_of written.answer) ≤ 10001 }
    ensures { result ≡ writer_numbers written.lines (reply_of written.answer) }
{
    let [code, variable, position, count] = numbers_of(written.answer);
    [code, variable, position, count, written.lines]
}

// The writer's question about a variable at a position of the input, over a lent table, a lent work slice and a lent output: 0, with the four numbers
// of its answer and the count of lines in `answer`; or 100 plus the number of a refusal, with everything lent unchanged.
pub fn report_write(
    sheet: &[u8],
    input: &[u8],
    variable: u32,
    position: u32,
    table: &mut [u32],
    work: &mut [u32],
    out: &mut [u8],
    answer: &mut [u32; 5],
) -> u32
    ensures { WriterNumbers sheet.now input.now variable position table.old table.new work.old work.new out.old out.new answer.old answer.new result }
{
    let written = writer::write(sheet, input, variable, position, table, work, out);
    report(written.map(with_lines).map_err(Refusal::number), answer)
}

// The two numbers of a claim.
fn numbers_of_claim(claim: Claim) -> [u32; 2]
    requires { claim_code (claim_says claim) ≤ 10001 }
    ensures { result ≡ claim_numbers (claim_says claim) }
{
    match claim {
        Claim::Success(end) => [Cell::SUCCESS.0 + end, end],
        Claim::Failure(end) => [Cell::FAILURE.0, end],
    }
}

// The checker on a reading for a variable at a position of the input: 0, with the code of the outcome that it claims and the end in its last line in
// `answer`; or 100 plus the number of a refusal, with the answer unchanged.
pub fn report_check(
    sheet: &[u8],
    input: &[u8],
    variable: u32,
    position: u32,
    reading: &[u8],
    answer: &mut [u32; 2],
) -> u32
    ensures { CheckNumbers sheet.now input.now variable position reading.now answer.old answer.new result }
{
    let found = checker::check(sheet, input, variable, position, reading);
    report(
        found.map(numbers_of_claim).map_err(Rejection::number),
        answer,
    )
}
