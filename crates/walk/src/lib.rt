// One walk over one lent table, from any table: what a pair has, found by calls and looked up in the table, the callers in a lent work slice.
#![tactic(auto)]

ghost use Rattle.std.specs.Prelude.{◌≡◌, ℕ, ◌+◌, ◌≤◌, length};
ghost use Rattle.grammar.specs.Words.{rule_in};
ghost use Rattle.schema.specs.Cells.{stored, HasCell};
ghost use Rattle.schema.specs.Derivation.{◌at◌, calls, act};
ghost use Rattle.schema.specs.Table.{cell, cells, held};
ghost use Rattle.step.specs.Codes.{Unsettled};
ghost use Rattle.step.specs.declared.Walk.TheVariants.{Settled};
ghost use Rattle.finish.specs.Reply.{reply_of};
ghost use Rattle.walk.specs.Walk.{WalkReady, Counts, WalkEnds, before};
ghost use Rattle.walk.specs.Over.{OverReady, Over};

use cells::{Cell, cell_number};
use finish::{Answer, finish};
use rules::{Act, System, leaf_reach};
use std::ops::ControlFlow::{Break, Continue};
use step::{State, Walk, advance, newly};

// How a walk ended, and how many cells it gave their first number.
#[derive(Drop)]
struct Walked {
    end: Walk,
    count: u32,
}

// Walks on from the first call of an open pair, the only one, that calls b first.
fn walk_on(
    system: System,
    variable: u32,
    position: u32,
    b: u32,
    table: &mut [u32],
    work: &mut [u32],
) -> Walked
    requires { WalkReady (rule_in system.rules.now) system.input.now system.variables variable position table.old work.old × ((C : ℕ) × (D : ℕ) × (act (rule_in system.rules.now) system.input.now (variable at position) ≡ calls b C D)) }
    ensures ends { WalkEnds (rule_in system.entry.rules.now) system.entry.input.now system.entry.variables (variable at position) (before (length system.entry.input.now) (variable at position) table.old) table.new work.old work.new result.end }
    ensures counts { Counts (cells system.entry.variables (length system.entry.input.now)) table.old table.new result.count }
{
    let mut x = State {
        variable,
        position,
        called: b,
        target: position,
        second: false,
        depth: 0,
    };
    let mut count: u32 = 0;
    loop {
        count += newly(system.input.len(), table, x.called, x.target);
        match advance(system, table, work, x) {
            Continue(next) => x = next,
            Break(end) => return Walked { end, count },
        }
    }
}

// Settles the asked pair, which is a leaf.
fn settle_asked(n: usize, variable: u32, position: u32, leaf: Cell, table: &mut [u32]) -> Walk
    requires { (1 ≤ variable) × (variable ≤ 256) × (n ≤ 4096) × (position ≤ n) × HasCell table.old (cell n (variable at position)) }
    ensures stores { table.new ≡ stored table.old (cell n (variable at position)) leaf.0 leaf.1 }
    ensures ends { result ≡ Settled leaf.0 }
{
    leaf.store(table, cell_number(n, variable, position));
    Walk::Settled(leaf.0)
}

// Walks from an open pair, the only one, until it is settled, or a pair is met a second time, or one has no rule.
fn walk_from(
    system: System,
    variable: u32,
    position: u32,
    table: &mut [u32],
    work: &mut [u32],
) -> Walked
    requires { WalkReady (rule_in system.rules.now) system.input.now system.variables variable position table.old work.old }
    ensures ends { WalkEnds (rule_in system.entry.rules.now) system.entry.input.now system.entry.variables (variable at position) (before (length system.entry.input.now) (variable at position) table.old) table.new work.old work.new result.end }
    ensures counts { Counts (cells system.entry.variables (length system.entry.input.now)) table.old table.new result.count }
{
    match system.act_at(variable, position) {
        Act::Calls(b, _, _) => walk_on(system, variable, position, b, table, work),
        Act::Success(end) => {
            let leaf = Cell::success(end, end);
            let end = settle_asked(system.input.len(), variable, position, leaf, table);
            Walked { end, count: 0 }
        }
        Act::Failure => {
            let leaf = Cell::failure(leaf_reach(system.rules, variable, position));
            let end = settle_asked(system.input.len(), variable, position, leaf, table);
            Walked { end, count: 0 }
        }
        Act::Missing => Walked {
            end: Walk::Missing(variable, position, 0),
            count: 0,
        },
    }
}

// Asks about a pair whose cell holds no result, over the table as it is.
fn walk_over(
    system: System,
    variable: u32,
    position: u32,
    table: &mut [u32],
    work: &mut [u32],
) -> Answer
    requires { OverReady (rule_in system.rules.now) system.input.now system.variables variable position table.old work.old × Unsettled (held (length system.input.now) table.old (variable at position)) }
    ensures { Over (rule_in system.entry.rules.now) system.entry.variables system.entry.input.now (variable at position) table.old table.new work.old work.new (reply_of result) }
{
    let n = system.input.len();
    let asked = newly(n, table, variable, position);
    Cell::OPEN.store(table, cell_number(n, variable, position));
    let Walked { end, count } = walk_from(system, variable, position, table, work);
    finish(n, system.variables, end, asked + count, table, work)
}

// Asks about a pair over the table as it is: a result that its cell holds is the answer, and anything else is walked.
pub fn ask_over(
    system: System,
    variable: u32,
    position: u32,
    table: &mut [u32],
    work: &mut [u32],
) -> Answer
    requires { OverReady (rule_in system.rules.now) system.input.now system.variables variable position table.old work.old }
    ensures { Over (rule_in system.entry.rules.now) system.entry.variables system.entry.input.now (variable at position) table.old table.new work.old work.new (reply_of result) }
{
    let asked = Cell::load(table, cell_number(system.input.len(), variable, position));
    if asked.0 == Cell::FAILURE.0 {
        return Answer::Failure(0);
    }
    if asked.0 < Cell::SUCCESS.0 {
        return walk_over(system, variable, position, table, work);
    }
    Answer::Success(asked.0 - Cell::SUCCESS.0, 0)
}
