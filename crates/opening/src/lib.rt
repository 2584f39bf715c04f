// The opening that already loops: the least number of an input's first bytes on which the start variable at 0 loops.
#![tactic(auto)]

ghost use Rattle.grammar.specs.Refusal.{accepted};
ghost use Rattle.grammar.specs.Words.{rule_in};
ghost use Rattle.schema.specs.Derivation.{◌at◌};
ghost use Rattle.memo.specs.Ask.{AskReady};
ghost use Rattle.opening.specs.Opening.{least_of, Opens, OpeningPromise};
ghost use Rattle.opening.specs.Seeking.{AskedLoop, SeekReady, Found};

use finish::Answer;
use grammar::refusal::Refusal;
use grammar::sheet::Rules;
use memo::ask;
use rules::System;
use verdict::admit_verdict;

// Whether a variable at 0 loops.
fn loops(system: System, start: u32, table: &mut [u32], work: &mut [u32]) -> bool
    requires { AskReady (rule_in system.rules.now) system.input.now system.variables start 0 table.old work.old }
    ensures { AskedLoop (rule_in system.entry.rules.now) system.entry.variables system.entry.input.now (start at 0) table.old table.new work.old work.new result }
{
    let answer = ask(system, start, 0, table, work);
    matches!(answer, Answer::Loop(..))
}

// The least number of first bytes on which a variable at 0 loops, where it loops on the whole input.
fn seek(system: System, start: u32, table: &mut [u32], work: &mut [u32]) -> u32
    requires { SeekReady (rule_in system.rules.now) system.input.now system.variables start table.old work.old }
    ensures { Found (rule_in system.entry.rules.now) system.entry.variables system.entry.input.now (start at 0) table.old table.new work.old work.new result }
{
    for m in 0..system.input.len() {
        let beginning = System {
            input: &system.input[..m],
            ..system
        };
        if loops(beginning, start, table, work) {
            return m as u32;
        }
    }
    system.input.len() as u32
}

// The opening of an input on which a variable at 0 loops, if it loops on the whole; the whole is then asked again, so that the table is the verdict's.
fn shortest(system: System, start: u32, table: &mut [u32], work: &mut [u32]) -> Option<u32>
    requires { AskReady (rule_in system.rules.now) system.input.now system.variables start 0 table.old work.old }
    ensures { Opens (rule_in system.entry.rules.now) system.entry.variables system.entry.input.now (start at 0) table.old table.new work.old work.new (accepted (least_of result)) }
{
    if !loops(system, start, table, work) {
        return None;
    }
    let m = seek(system, start, table, work);
    loops(system, start, table, work);
    Some(m)
}

// The least opening of an input that loops as its verdict does, over a lent table and a lent work slice; none for any other verdict.
pub fn opening(
    sheet: &[u8],
    input: &[u8],
    table: &mut [u32],
    work: &mut [u32],
) -> Result<Option<u32>, Refusal>
    ensures { OpeningPromise sheet.now input.now table.old table.new work.old work.new result }
{
    let mut rules: Rules = [0u32; 256];
    let grammar = admit_verdict(sheet, input, table.len(), work.len(), &mut rules)?;
    let system = System {
        rules: &rules,
        variables: grammar.variables,
        input,
    };
    Ok(shortest(system, grammar.start, table, work))
}
