// The writer: asks a question, and for success and failure writes its certificate (document 01: a reading).
#![tactic(auto)]

ghost use Rattle.std.specs.Prelude.{◌≡◌, ◌++◌, ◌+◌, ◌*◌, ◌≤◌, ◌<◌, ltb, length, set, take, drop};
ghost use Rattle.grammar.specs.Words.{rule_in};
ghost use Rattle.schema.specs.Derivation.{◌at◌, Result, second};
ghost use Rattle.schema.specs.Line.{line_of, line_bytes};
ghost use Rattle.schema.specs.Table.{cell, held, cells};
ghost use Rattle.step.specs.Codes.{Code, Settled, result_of};
ghost use Rattle.finish.specs.Reply.{reply_of, outcome_of};
ghost use Rattle.memo.specs.Answer.{Answers};
ghost use Rattle.writer.specs.Writer.{Writes, WriterPromise};
ghost use Rattle.writer.specs.Writing.{StepReady, Steps, LinesReady, WriteReady, WriteEnds, AskWriteReady, has_result};

use cells::{Caller, Cell, blank, cell_number};
use finish::Answer;
use grammar::refusal::Refusal;
use grammar::sheet::Rules;
use lines::{Stand, Turn, lay_line, link_down, note_line, turn_at};
use memo::{admit_question, ask};
use rules::System;
use std::ops::ControlFlow;
use std::ops::ControlFlow::{Break, Continue};

// What a step comes to: the next place, or the count of lines at the end.
type Step = ControlFlow<u32, Stand>;

// What the writer answers: the answer of the question, and the count of lines written.
#[derive(Drop)]
pub struct Written {
    pub answer: Answer,
    pub lines: u32,
}

// One step: down to a called pair that has no line, or the line of the pair and back to its caller.
fn advance(system: System, table: &[u32], work: &mut [u32], out: &mut [u8], x: Stand) -> Step
    requires { StepReady (rule_in system.rules.now) system.input.now system.variables table.now work.old out.old x }
    ensures { Steps (rule_in system.entry.rules.now) system.entry.input.now table.now work.old out.old work.new out.new x result }
{
    let n = system.input.len();
    match turn_at(system, table, work, x.variable, x.position) {
        Turn::Down(b, q) => {
            link_down(n, work, x, b, q);
            Continue(Stand {
                variable: b,
                position: q,
                lines: x.lines,
            })
        }
        Turn::Line(i, j) => {
            lay_line(n, table, out, x, i, j);
            let link = note_line(n, work, x);
            if link == 1 {
                return Break(x.lines + 1);
            }
            let caller = Caller::unpack(link);
            Continue(Stand {
                variable: caller.variable,
                position: caller.position,
                lines: x.lines + 1,
            })
        }
    }
}

// Goes through the reached pairs from the asked one, the only one with a link.
fn write_from(
    system: System,
    variable: u32,
    position: u32,
    table: &[u32],
    work: &mut [u32],
    out: &mut [u8],
) -> u32
    requires { WriteReady (rule_in system.rules.now) system.input.now system.variables variable position table.now work.old out.old }
    ensures { WriteEnds (rule_in system.entry.rules.now) system.entry.input.now system.entry.variables (variable at position) work.old work.new out.old out.new result }
{
    let mut x = Stand {
        variable,
        position,
        lines: 0,
    };
    loop {
        match advance(system, table, work, out, x) {
            Continue(next) => x = next,
            Break(lines) => return lines,
        }
    }
}

// Writes the lines of a pair that has a result, the work slice blanked first.
fn write_lines(
    system: System,
    variable: u32,
    position: u32,
    table: &[u32],
    work: &mut [u32],
    out: &mut [u8],
) -> u32
    requires { LinesReady (rule_in system.rules.now) system.input.now system.variables variable position table.now work.old out.old }
    ensures { WriteEnds (rule_in system.entry.rules.now) system.entry.input.now system.entry.variables (variable at position) work.old work.new out.old out.new result }
{
    blank(work, system.variables as usize * (system.input.len() + 1));
    let root = cell_number(system.input.len(), variable, position);
    work[root] = 1;
    write_from(system, variable, position, table, work, out)
}

// Asks about a pair, and writes its lines if it has a result.
fn ask_and_write(
    system: System,
    variable: u32,
    position: u32,
    table: &mut [u32],
    work: &mut [u32],
    out: &mut [u8],
) -> Written
    requires { AskWriteReady (rule_in system.rules.now) system.input.now system.variables variable position table.old work.old out.old }
    ensures answers { Answers (rule_in system.entry.rules.now) system.entry.variables system.entry.input.now (variable at position) table.old table.new work.old work.new (reply_of result.answer) }
    ensures writes { Writes (rule_in system.entry.rules.now) system.entry.input.now (variable at position) (outcome_of (reply_of result.answer)) out.old out.new result.lines }
{
    let answer = ask(system, variable, position, table, work);
    if has_result(answer) {
        let lines = write_lines(system, variable, position, table, work, out);
        return Written { answer, lines };
    }
    Written { answer, lines: 0 }
}

// Success or failure.
fn has_result(answer: Answer) -> bool
    ensures { result ≡ has_result (reply_of answer) }
{
    matches!(answer, Answer::Success(..) | Answer::Failure(_))
}

// A question about a variable at a position of the input, and its certificate in a lent output.
pub fn write(
    sheet: &[u8],
    input: &[u8],
    variable: u32,
    position: u32,
    table: &mut [u32],
    work: &mut [u32],
    out: &mut [u8],
) -> Result<Written, Refusal>
    ensures { WriterPromise sheet.now input.now variable position table.old table.new work.old work.new out.old out.new result }
{
    let mut rules: Rules = [0u32; 256];
    let grammar = admit_question(
        sheet,
        input,
        variable,
        position,
        table.len(),
        work.len(),
        &mut rules,
    )?;
    let variables = grammar.variables;
    if output_too_small(variables, input.len(), out.len()) {
        return Err(Refusal::Output);
    }
    let system = System {
        rules: &rules,
        variables,
        input,
    };
    Ok(ask_and_write(system, variable, position, table, work, out))
}

// Refusal 11: the output has fewer bytes than a line for each cell takes.
fn output_too_small(variables: u32, n: usize, out: usize) -> bool
    requires { (variables ≤ 256) × (n ≤ 4096) }
    ensures { result ≡ ltb out (49 * cells variables n) }
{
    out < 49 * (variables as usize * (n + 1))
}
