// The table engine: questions over a lent table.
#![tactic(auto)]

ghost use Rattle.std.specs.Prelude.{◌||◌, ◌≡◌, ◌*◌, ◌≤◌, ltb};
ghost use Rattle.grammar.specs.Words.{rule_in};
ghost use Rattle.schema.specs.Derivation.{◌at◌};
ghost use Rattle.schema.specs.Table.{cells};
ghost use Rattle.schema.specs.Handed.{question_of};
ghost use Rattle.rules.specs.Admission.{Admits};
ghost use Rattle.finish.specs.Reply.{reply_of};
ghost use Rattle.memo.specs.Answer.{Answers, QuestionPromise};
ghost use Rattle.memo.specs.Ask.{AskReady};

use cells::blank;
use finish::Answer;
use grammar::refusal::Refusal;
use grammar::sheet::{Grammar, Rules};
use rules::{System, admit};
use walk::ask_over;

// Asks about a pair, the table blanked first.
pub fn ask(
    system: System,
    variable: u32,
    position: u32,
    table: &mut [u32],
    work: &mut [u32],
) -> Answer
    requires { AskReady (rule_in system.rules.now) system.input.now system.variables variable position table.old work.old }
    ensures { Answers (rule_in system.entry.rules.now) system.entry.variables system.entry.input.now (variable at position) table.old table.new work.old work.new (reply_of result) }
{
    let cells = system.variables as usize * (system.input.len() + 1);
    blank(table, 2 * cells);
    ask_over(system, variable, position, table, work)
}

// Refusal 10: the table has fewer than two numbers for each cell, or the work slice fewer than one.
pub fn too_small(variables: u32, n: usize, table: usize, work: usize) -> bool
    requires { (variables ≤ 256) × (n ≤ 4096) }
    ensures { result ≡ (ltb table (2 * cells variables n) || ltb work (cells variables n)) }
{
    let size = variables as usize * (n + 1);
    table < 2 * size || work < size
}

// The grammar of a sheet, its rules in the lent array, for a question over slices of these lengths; or the first of refusals 1 to 6 and 8 to 10.
pub fn admit_question(
    sheet: &[u8],
    input: &[u8],
    variable: u32,
    position: u32,
    table: usize,
    work: usize,
    rules: &mut Rules,
) -> Result<Grammar, Refusal>
    ensures { Admits sheet.now (question_of input.now (variable at position) table work) rules.old rules.new result }
{
    let grammar = admit(sheet, input, variable, position, rules)?;
    if too_small(grammar.variables, input.len(), table, work) {
        return Err(Refusal::Room);
    }
    Ok(grammar)
}

// A question about a variable at a position of the input, over a lent table and a lent work slice.
pub fn question(
    sheet: &[u8],
    input: &[u8],
    variable: u32,
    position: u32,
    table: &mut [u32],
    work: &mut [u32],
) -> Result<Answer, Refusal>
    ensures { QuestionPromise sheet.now input.now variable position table.old table.new work.old work.new result }
{
    let mut rules: Rules = [0u32; 256];
    let grammar = admit_question(
        sheet,
        input,
        variable,
        position,
        table.len(),
        work.len(),
        &mut rules,
    )?;
    let system = System {
        rules: &rules,
        variables: grammar.variables,
        input,
    };
    Ok(ask(system, variable, position, table, work))
}
