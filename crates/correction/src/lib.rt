// Questions over a table that was kept: about an entry of which one byte was corrected, and further ones about the same entry.
#![tactic(auto)]

ghost use Rattle.correction.specs.Correction.{CorrectionPromise};

use comparison::differs_elsewhere;
use finish::Answer;
use grammar::refusal::Refusal;
use grammar::sheet::Rules;
use memo::admit_question;
use passes::retain;
use rules::System;
use walk::ask_over;

mod unchanged;

pub use unchanged::further;

// A question about a variable at a position of the input, of which the byte at c was corrected, over a table of the old input, which it was before. The
// count is of newly decided cells.
pub fn correct(
    sheet: &[u8],
    old: &[u8],
    input: &[u8],
    variable: u32,
    position: u32,
    c: u32,
    table: &mut [u32],
    work: &mut [u32],
) -> Result<Answer, Refusal>
    ensures { CorrectionPromise sheet.now old.now input.now variable position c table.old table.new work.old work.new result }
{
    let mut rules: Rules = [0u32; 256];
    let grammar = admit_question(
        sheet,
        input,
        variable,
        position,
        table.len(),
        work.len(),
        &mut rules,
    )?;
    let variables = grammar.variables;
    if input.len() <= c as usize {
        return Err(Refusal::Corrected);
    }
    if differs_elsewhere(old, input, c as usize) {
        return Err(Refusal::Entries);
    }
    retain(table, variables, input.len(), c + 1)?;
    let system = System {
        rules: &rules,
        variables,
        input,
    };
    Ok(ask_over(system, variable, position, table, work))
}
