// The checker of certificates. A certificate is what document 01 calls a reading: a derivation written out so that it can be checked.
#![tactic(auto)]

ghost use Rattle.std.specs.Prelude.{cond, ◌&&◌, ◌≡◌, ◌*◌, ◌≤◌, eqb, length};
ghost use Rattle.std.proofs.Math.Option.{none, some};
ghost use Rattle.grammar.specs.Words.{rule_in};
ghost use Rattle.schema.specs.Derivation.{act, ◌at◌};
ghost use Rattle.checker.specs.declared.Rejection.TheVariants.{Refused};
ghost use Rattle.checker.specs.Rejections.{number_of, line_of};
ghost use Rattle.checker.specs.Checker.{line_at, earlier_line, result_for, result_then, result_by, says, last_found, judged, told, Checks};
ghost use Rattle.checker.specs.Steps.{line_held, line_read, result_given, Sized, test_says, line_found, lines_found};

use columns::fields;
use grammar::refusal::Refusal;
use grammar::sheet::Rules;
use rules::{Act, System, admit};

// What a passed certificate claims: success or failure, with the end in its last line.
#[derive(Clone, Copy, PartialEq, Eq)]
pub enum Claim {
    Success(u32),
    Failure(u32),
}

// Why a certificate is refused: as the question about it is, or for what is at fault in it. A line of the certificate is counted from 1; its
// length is at fault in line 0.
#[derive(Clone, Copy, PartialEq, Eq)]
pub enum Rejection {
    Refused(Refusal),
    ReadingForm(usize),
    ReadingLine(usize),
    ReadingPair,
}

impl Rejection {
    // The number of the refusal.
    pub fn number(self) -> u32
        ensures { result ≡ number_of self }
    {
        match self {
            Rejection::Refused(refusal) => refusal.number(),
            Rejection::ReadingForm(_) => 12,
            Rejection::ReadingLine(_) => 13,
            Rejection::ReadingPair => 14,
        }
    }

    // The line that is at fault, or 0.
    pub fn line(self) -> usize
        ensures { result ≡ line_of self }
    {
        match self {
            Rejection::Refused(refusal) => refusal.line() as usize,
            Rejection::ReadingForm(line) | Rejection::ReadingLine(line) => line,
            Rejection::ReadingPair => 0,
        }
    }
}

impl From<Refusal> for Rejection {
    ghost from_gives = { λ refusal rejection. rejection ≡ Refused refusal };

    fn from(refusal: Refusal) -> Rejection {
        Rejection::Refused(refusal)
    }
}

// The six numbers of a line; the outcome is 0 for success and 1 for failure, the last two are the numbers of the called pairs' lines.
#[derive(Clone, Copy)]
struct Line {
    variable: u32,
    start: u32,
    outcome: u32,
    end: u32,
    first: u32,
    second: u32,
}

// The outcome that a line or a rule gives a pair: success with its end, or failure.
#[derive(Clone, Copy)]
enum Outcome {
    Success(u32),
    Failure,
}

// The line of a number.
#[tactic(auto, using(crate::proofs::LineForm::line_form))]
fn line_at(certificate: &[u8], number: usize) -> Option<Line>
    requires { (1 ≤ number) × (49 * number ≤ length certificate.now) }
    ensures { line_read result ≡ line_at certificate.now number }
{
    let at = 49 * (number - 1);
    if certificate[at + 48] != 10 {
        return None;
    }
    let numbers = fields::<6, 8>(certificate, at)?;
    let [variable, start, outcome, end, first, second] = numbers;
    Some(Line {
        variable,
        start,
        outcome,
        end,
        first,
        second,
    })
}

// The outcome that a line gives the pair of a variable and a position, if it is that pair's line.
fn result_for(line: Line, variable: u32, position: u32) -> Option<Outcome>
    ensures { result_given result ≡ result_for (variable at position) (some (line_held line)) }
{
    if line.variable != variable || line.start != position {
        return None;
    }
    match line.outcome {
        0 => Some(Outcome::Success(line.end)),
        1 if line.end == position => Some(Outcome::Failure),
        _ => None,
    }
}

// The outcome that the line of a number gives a pair, if it is that pair's line and stands before line n.
#[tactic(auto, unfolding(crate::specs::Checker::line_at))]
fn called(
    certificate: &[u8],
    n: usize,
    number: u32,
    variable: u32,
    position: u32,
) -> Option<Outcome>
    requires { 49 * n ≤ length certificate.now }
    ensures { result_given result ≡ result_for (variable at position) (earlier_line certificate.now n number) }
{
    let number = number as usize;
    if number == 0 || n <= number {
        return None;
    }
    let line = line_at(certificate, number)?;
    result_for(line, variable, position)
}

// The outcome that kind 4 gives the pair of line n, from the lines of the called pairs.
fn result_by_call(
    certificate: &[u8],
    n: usize,
    line: Line,
    b: u32,
    c: u32,
    d: u32,
) -> Option<Outcome>
    requires { 49 * n ≤ length certificate.now }
    ensures { result_given result ≡ result_then (earlier_line certificate.now n) c d line.start line.second (result_for (b at line.start) (earlier_line certificate.now n line.first)) }
{
    match called(certificate, n, line.first, b, line.start)? {
        Outcome::Success(end) => called(certificate, n, line.second, c, end),
        Outcome::Failure => called(certificate, n, line.second, d, line.start),
    }
}

// The outcome that a leaf rule gives: its line calls no lines.
fn result_by_leaf(line: Line, outcome: Outcome) -> Option<Outcome>
    ensures { result_given result ≡ cond (eqb line.first 0 && eqb line.second 0) (result_given (Some outcome)) none }
{
    (line.first == 0 && line.second == 0).then_some(outcome)
}

// The outcome that the rule of line n gives the line's pair.
fn result_by(system: System, certificate: &[u8], n: usize, line: Line) -> Option<Outcome>
    requires { (1 ≤ line.variable) × (line.variable ≤ 256) × (length system.input.now ≤ 4096) × (49 * n ≤ length certificate.now) }
    ensures { result_given result ≡ result_by (earlier_line certificate.now n) (act (rule_in system.entry.rules.now) system.entry.input.now (line.variable at line.start)) line.start line.first line.second }
{
    match system.act_at(line.variable, line.start) {
        Act::Success(end) => result_by_leaf(line, Outcome::Success(end)),
        Act::Failure => result_by_leaf(line, Outcome::Failure),
        Act::Missing => None,
        Act::Calls(b, c, d) => result_by_call(certificate, n, line, b, c, d),
    }
}

// Do the outcome and the end of a line say the outcome given?
fn states(line: Line, given: Option<Outcome>) -> bool
    ensures { result ≡ says line.start line.outcome line.end (result_given given) }
{
    match given {
        Some(Outcome::Success(end)) => line.outcome == 0 && line.end == end,
        Some(Outcome::Failure) => line.outcome == 1 && line.end == line.start,
        None => false,
    }
}

// Does line n follow from the lines before it?
#[tactic(auto, unfolding(crate::specs::Checker::follows))]
fn follows(system: System, certificate: &[u8], n: usize, line: Line) -> bool
    requires { Sized system.variables system.input.now certificate.now n }
    ensures { result ≡ Rattle.checker.specs.Checker.follows (rule_in system.entry.rules.now) system.entry.variables system.entry.input.now (earlier_line certificate.now n) (some (line_held line)) }
{
    if !(1..=system.variables).contains(&line.variable)
        || system.input.len() < line.start as usize
    {
        return false;
    }
    states(line, result_by(system, certificate, n, line))
}

// Line n, for refusals 12 and 13.
#[tactic(auto, using(crate::proofs::Progress::line_tests))]
fn check_line(system: System, certificate: &[u8], n: usize) -> Result<(), Rejection>
    requires { (1 ≤ n) × Sized system.variables system.input.now certificate.now n }
    ensures { test_says result ≡ line_found (rule_in system.entry.rules.now) system.entry.variables system.entry.input.now certificate.now n }
{
    let Some(line) = line_at(certificate, n) else {
        return Err(Rejection::ReadingForm(n));
    };
    if !follows(system, certificate, n, line) {
        return Err(Rejection::ReadingLine(n));
    }
    Ok(())
}

// The first `count` lines in turn.
#[tactic(auto, using(crate::proofs::Progress::testing))]
fn check_lines(system: System, certificate: &[u8], count: usize) -> Result<(), Rejection>
    requires { Sized system.variables system.input.now certificate.now count }
    ensures { test_says result ≡ lines_found (rule_in system.entry.rules.now) system.entry.variables system.entry.input.now certificate.now count }
{
    for passed in 0..count {
        check_line(system, certificate, passed + 1)?;
    }
    Ok(())
}

// The claim of the last line, for refusal 14.
#[tactic(auto, unfolding(crate::specs::Checker::last_found, crate::specs::Checker::line_at))]
fn last_line(
    certificate: &[u8],
    count: usize,
    variable: u32,
    position: u32,
) -> Result<Claim, Rejection>
    requires { 49 * count ≤ length certificate.now }
    ensures { told result ≡ last_found (variable at position) (line_at certificate.now count) }
{
    if count == 0 {
        return Err(Rejection::ReadingPair);
    }
    let line = line_at(certificate, count).ok_or(Rejection::ReadingPair)?;
    if line.variable != variable || line.start != position {
        return Err(Rejection::ReadingPair);
    }
    match line.outcome {
        0 => Ok(Claim::Success(line.end)),
        _ => Ok(Claim::Failure(line.end)),
    }
}

// What the rules make of a certificate for the pair of a variable and a position, for refusals 12 to 14.
#[tactic(auto, using(crate::proofs::Certificate::judging))]
fn judge(
    system: System,
    variable: u32,
    position: u32,
    certificate: &[u8],
) -> Result<Claim, Rejection>
    requires { (system.variables ≤ 256) × (length system.input.now ≤ 4096) }
    ensures { told result ≡ judged (rule_in system.entry.rules.now) system.entry.variables system.entry.input.now (variable at position) certificate.now }
{
    if certificate.len() % 49 != 0 {
        return Err(Rejection::ReadingForm(0));
    }
    let count = certificate.len() / 49;
    check_lines(system, certificate, count)?;
    last_line(certificate, count, variable, position)
}

// Checks a certificate for a question: what it claims, or the first of refusals 1 to 6, 8, 9 and 12 to 14.
pub fn check(
    sheet: &[u8],
    input: &[u8],
    variable: u32,
    position: u32,
    certificate: &[u8],
) -> Result<Claim, Rejection>
    ensures { Checks sheet.now input.now (variable at position) certificate.now result }
{
    let mut rules: Rules = [0u32; 256];
    let grammar = admit(sheet, input, variable, position, &mut rules)?;
    let system = System {
        rules: &rules,
        variables: grammar.variables,
        input,
    };
    judge(system, variable, position, certificate)
}
