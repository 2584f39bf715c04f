// One step of the walk over a lent table: the called pair is looked up, and settled, opened or gone on with.
#![tactic(auto)]

ghost use Rattle.std.specs.Prelude.{◌≡◌, ◌/◌, ◌%◌, ◌≤◌, ◌<◌, eqb, length, set};
ghost use Rattle.grammar.specs.Words.{rule_in};
ghost use Rattle.schema.specs.Cells.{stored, HasCell};
ghost use Rattle.schema.specs.Derivation.{◌at◌};
ghost use Rattle.schema.specs.Table.{cell, held};
ghost use Rattle.cells.specs.Packed.{entry};
ghost use Rattle.step.specs.Codes.{open_mark, Unsettled, Code, fresh};
ghost use Rattle.step.specs.Step.{top_of, called_of, StepReady, ToSecond, GoesBack, SettleReady, SettlesTop, ResumeReady, Resumes, Steps};

use cells::{Caller, Cell, cell_number};
use grammar::sheet::Rules;
use rules::{Act, System, first_of, leaf_reach, second_of};
use std::ops::ControlFlow;
use std::ops::ControlFlow::{Break, Continue};

// Where the walk stands: the latest open pair; the pair that it calls, a variable and its position, the target; whether that is its second call;
// and how many callers the work slice holds.
#[derive(Clone, Copy)]
pub struct State {
    pub variable: u32,
    pub position: u32,
    pub called: u32,
    pub target: u32,
    pub second: bool,
    pub depth: usize,
}

// What a walk ends with: the number of a result; a pair met a second time, and the one that called it; or the pair that has no rule;
// but for a result with the number of callers in the work slice.
#[derive(Drop)]
pub enum Walk {
    Settled(u32),
    Loop(u32, u32, u32, u32, usize),
    Missing(u32, u32, usize),
}

// What a step comes to: the next state, or what the walk ends with.
pub type Step = ControlFlow<Walk, State>;

// The state at the caller that an entry of the work slice holds, once the top of x is settled.
fn caller_of(x: State, entry: u32, depth: usize) -> State
    ensures { (result.variable ≡ entry / 16384) × (result.position ≡ entry / 2 % 8192) × (result.second ≡ eqb (entry % 2) 1) × (called_of result ≡ top_of x) × (result.depth ≡ depth) }
{
    let caller = Caller::unpack(entry);
    State {
        variable: caller.variable,
        position: caller.position,
        called: x.variable,
        target: x.position,
        second: caller.second,
        depth,
    }
}

// The state at the second call of the top of x, whose first call has a result: c where it ends, or d where the pair stands.
fn to_second(rules: &Rules, x: State, first: Cell) -> State
    requires { (1 ≤ x.variable) × (x.variable ≤ 256) × Code first.0 }
    ensures { ToSecond (rule_in rules.now) x first result }
{
    if first.0 == Cell::FAILURE.0 {
        return State {
            called: second_of(rules, x.variable, false),
            target: x.position,
            second: true,
            ..x
        };
    }
    State {
        called: second_of(rules, x.variable, true),
        target: first.0 - Cell::SUCCESS.0,
        second: true,
        ..x
    }
}

// Opens the called pair, and notes its caller.
fn open_called(n: usize, table: &mut [u32], work: &mut [u32], x: State)
    requires { (1 ≤ x.called) × (x.called ≤ 256) × (n ≤ 4096) × (x.target ≤ n) × HasCell table.old (cell n (called_of x)) × (x.variable ≤ 256) × (x.position ≤ 4096) × (x.depth < length work.old) }
    ensures opens { table.new ≡ stored table.old (cell n (called_of x)) open_mark 0 }
    ensures notes { work.new ≡ set work.old x.depth (entry x.second (top_of x)) }
{
    Cell::OPEN.store(table, cell_number(n, x.called, x.target));
    let caller = Caller {
        variable: x.variable,
        position: x.position,
        second: x.second,
    };
    let depth = x.depth;
    work[depth] = caller.pack();
}

// Settles the latest open pair, and goes back to its caller. It looked as far as the further one of its two called pairs.
fn settle_top(
    rules: &Rules,
    n: usize,
    table: &mut [u32],
    work: &[u32],
    x: State,
    second: Cell,
) -> Step
    requires { SettleReady (rule_in rules.now) n table.old work.now x }
    ensures stores { SettlesTop (rule_in rules.now) n table.old table.new x second }
    ensures returns { GoesBack work.now x second result }
{
    let first = Cell::load(
        table,
        cell_number(n, first_of(rules, x.variable), x.position),
    );
    let cell = second.reaching(first.1);
    cell.store(table, cell_number(n, x.variable, x.position));
    if x.depth == 0 {
        return Break(Walk::Settled(cell.0));
    }
    let depth = x.depth - 1;
    Continue(caller_of(x, work[depth], depth))
}

// Goes on with the result of the called pair: to the second call, or back to the caller with the latest open pair settled.
fn resume(rules: &Rules, n: usize, table: &mut [u32], work: &[u32], x: State, cell: Cell) -> Step
    requires { ResumeReady (rule_in rules.now) n table.old work.now x cell.0 }
    ensures { Resumes (rule_in rules.now) n table.old work.now table.new x cell result }
{
    if x.second {
        return settle_top(rules, n, table, work, x, cell);
    }
    Continue(to_second(rules, x, cell))
}

// Settles the called pair, a leaf, in place, and goes on with its result.
fn settle_leaf(
    rules: &Rules,
    n: usize,
    table: &mut [u32],
    work: &[u32],
    x: State,
    leaf: Cell,
) -> Step
    requires { ResumeReady (rule_in rules.now) n table.old work.now x leaf.0 × (1 ≤ x.called) × (x.called ≤ 256) × (x.target ≤ n) × HasCell table.old (cell n (called_of x)) }
    ensures { Resumes (rule_in rules.now) n (stored table.old (cell n (called_of x)) leaf.0 leaf.1) work.now table.new x leaf result }
{
    leaf.store(table, cell_number(n, x.called, x.target));
    resume(rules, n, table, work, x, leaf)
}

// One step of the walk, where the called pair is not settled: a leaf is settled at once, and any other pair is opened.
fn advance_unsettled(system: System, table: &mut [u32], work: &mut [u32], x: State) -> Step
    requires { StepReady (rule_in system.rules.now) system.input.now system.variables table.old work.old x × Unsettled (held (length system.input.now) table.old (called_of x)) }
    ensures { Steps (rule_in system.entry.rules.now) system.entry.input.now table.old work.old table.new work.new x result }
{
    let n = system.input.len();
    match system.act_at(x.called, x.target) {
        Act::Success(end) => settle_leaf(system.rules, n, table, work, x, Cell::success(end, end)),
        Act::Failure => {
            let reach = leaf_reach(system.rules, x.called, x.target);
            settle_leaf(system.rules, n, table, work, x, Cell::failure(reach))
        }
        Act::Calls(b, _, _) => {
            open_called(n, table, work, x);
            Continue(State {
                variable: x.called,
                position: x.target,
                called: b,
                target: x.target,
                second: false,
                depth: x.depth + 1,
            })
        }
        Act::Missing => {
            open_called(n, table, work, x);
            Break(Walk::Missing(x.called, x.target, x.depth + 1))
        }
    }
}

// One step of the walk: the called pair is looked up in the table.
pub fn advance(system: System, table: &mut [u32], work: &mut [u32], x: State) -> Step
    requires { StepReady (rule_in system.rules.now) system.input.now system.variables table.old work.old x }
    ensures { Steps (rule_in system.entry.rules.now) system.entry.input.now table.old work.old table.new work.new x result }
{
    let n = system.input.len();
    let found = Cell::load(table, cell_number(n, x.called, x.target));
    if found.0 == Cell::FAILURE.0 {
        return resume(system.rules, n, table, work, x, found);
    }
    if found.0 < Cell::SUCCESS.0 {
        return advance_unsettled(system, table, work, x);
    }
    if found.0 == Cell::OPEN.0 {
        let end = Walk::Loop(x.called, x.target, x.variable, x.position, x.depth);
        return Break(end);
    }
    resume(system.rules, n, table, work, x, found)
}

// How many cells the next number of a pair's cell decides: one where it is blank.
pub fn newly(n: usize, table: &[u32], variable: u32, position: u32) -> u32
    requires { (1 ≤ variable) × (variable ≤ 256) × (n ≤ 4096) × (position ≤ n) × HasCell table.now (cell n (variable at position)) }
    ensures { result ≡ fresh (held n table.now (variable at position)) }
{
    let cell = Cell::load(table, cell_number(n, variable, position));
    u32::from(cell.0 == Cell::BLANK.0)
}
