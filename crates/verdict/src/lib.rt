// The verdict: the question about the start variable at position 0.
#![tactic(auto)]

ghost use Rattle.std.specs.Prelude.{◌≡◌, ℕ, Ok};
ghost use Rattle.schema.specs.Handed.{verdict_of};
ghost use Rattle.rules.specs.Admission.{Admits};
ghost use Rattle.grammar.specs.Numbers.{number_of, line_of};
ghost use Rattle.grammar.specs.Refusal.{accepted};
ghost use Rattle.finish.specs.Reply.{reply_of};
ghost use Rattle.verdict.specs.Verdict.{numbers, numbers_by, judged, VerdictPromise};

use finish::Answer;
use grammar::refusal::Refusal;
use grammar::sheet::{Grammar, Rules, read_sheet};
use memo::{ask, too_small};
use rules::System;

// What a verdict says, with the count of decided cells: recognised or partial with the end, failure; loop or a missing rule with
// the variable and the position that are named.
#[derive(Clone, Copy)]
pub enum Judgement {
    Recognised(u32, u32),
    Partial(u32, u32),
    Failure(u32),
    Loop(u32, u32, u32),
    Missing(u32, u32, u32),
}

// The verdict of an answer about the start variable at 0, on n bytes.
fn judge(answer: Answer, n: usize) -> Judgement
    ensures { numbers (Ok result) ≡ judged n (accepted (reply_of answer)) }
{
    match answer {
        Answer::Success(end, count) if end as usize == n => Judgement::Recognised(end, count),
        Answer::Success(end, count) => Judgement::Partial(end, count),
        Answer::Failure(count) => Judgement::Failure(count),
        Answer::Loop(variable, position, count) => Judgement::Loop(variable, position, count),
        Answer::Missing(variable, position, count) => Judgement::Missing(variable, position, count),
    }
}

// Why a verdict is refused, as the first line of `readentry` tells it: a number, and the line that is at fault or 0.
pub trait Reason {
    ghost number: { Self → ℕ };

    ghost line: { Self → ℕ };

    fn told(self) -> (u32, u32)
        ensures number { result.0 ≡ number self }
        ensures line { result.1 ≡ line self };
}

impl Reason for Refusal {
    ghost number = { number_of };

    ghost line = { line_of };

    fn told(self) -> (u32, u32) {
        (self.number(), self.line())
    }
}

// Any number and any line.
impl Reason for (u32, u32) {
    ghost number = { λ told. told.0 };

    ghost line = { λ told. told.1 };

    fn told(self) -> (u32, u32) {
        (self.0, self.1)
    }
}

// The four numbers of a verdict, those of the first line of `readentry`.
pub fn numbers_of<R: Reason>(verdict: Result<Judgement, R>) -> [u32; 4]
    ensures { result ≡ numbers_by R.number R.line verdict }
{
    match verdict {
        Ok(Judgement::Recognised(end, count)) => [0, 0, end, count],
        Ok(Judgement::Failure(count)) => [1, 0, 0, count],
        Ok(Judgement::Loop(variable, position, count)) => [2, variable, position, count],
        Ok(Judgement::Missing(variable, position, count)) => [3, variable, position, count],
        Ok(Judgement::Partial(end, count)) => [5, 0, end, count],
        Err(reason) => {
            let (number, line) = reason.told();
            [9, number, line, 0]
        }
    }
}

// The grammar of a sheet, its rules in the lent array, for a verdict on an input with slices of these lengths; or the first of refusals 1 to 6
// and 10.
pub fn admit_verdict(
    sheet: &[u8],
    input: &[u8],
    table: usize,
    work: usize,
    rules: &mut Rules,
) -> Result<Grammar, Refusal>
    ensures { Admits sheet.now (verdict_of input.now table work) rules.old rules.new result }
{
    let grammar = read_sheet(sheet, rules)?;
    if 4096 < input.len() {
        return Err(Refusal::LongEntry);
    }
    if too_small(grammar.variables, input.len(), table, work) {
        return Err(Refusal::Room);
    }
    Ok(grammar)
}

// The verdict on an input, over a lent table and a lent work slice.
pub fn verdict(
    sheet: &[u8],
    input: &[u8],
    table: &mut [u32],
    work: &mut [u32],
) -> Result<Judgement, Refusal>
    ensures { VerdictPromise sheet.now input.now table.old table.new work.old work.new result }
{
    let mut rules: Rules = [0u32; 256];
    let grammar = admit_verdict(sheet, input, table.len(), work.len(), &mut rules)?;
    let system = System {
        rules: &rules,
        variables: grammar.variables,
        input,
    };
    let answer = ask(system, grammar.start, 0, table, work);
    Ok(judge(answer, input.len()))
}
