// Further questions about an input that has not changed.
ghost use Rattle.correction.specs.Further.{FurtherPromise};

use finish::Answer;
use grammar::refusal::Refusal;
use grammar::sheet::Rules;
use memo::admit_question;
use passes::cells_out;
use rules::System;
use walk::ask_over;

// A further question about a variable at a position of the input, over a table of the same input, of which nothing is blanked. The count is of newly
// decided cells.
pub fn further(
    sheet: &[u8],
    input: &[u8],
    variable: u32,
    position: u32,
    table: &mut [u32],
    work: &mut [u32],
) -> Result<Answer, Refusal>
    ensures { FurtherPromise sheet.now input.now variable position table.old table.new work.old work.new result }
{
    let mut rules: Rules = [0u32; 256];
    let grammar = admit_question(
        sheet,
        input,
        variable,
        position,
        table.len(),
        work.len(),
        &mut rules,
    )?;
    let variables = grammar.variables;
    if cells_out(table, variables, input.len()) {
        return Err(Refusal::Cell);
    }
    let system = System {
        rules: &rules,
        variables,
        input,
    };
    Ok(ask_over(system, variable, position, table, work))
}
