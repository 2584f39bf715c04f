// The lines of a certificate (document 01: a reading), one at a time: what is next at a pair of the finished table, its line, and what is noted in
// the work slice.
#![tactic(auto)]

ghost use Rattle.std.specs.Prelude.{◌≡◌, ◌++◌, ◌+◌, ◌*◌, ◌≤◌, ◌<◌, length, set, take, drop};
ghost use Rattle.grammar.specs.Words.{rule_in};
ghost use Rattle.schema.specs.Cells.{HasCell};
ghost use Rattle.schema.specs.Derivation.{◌at◌, Result, second};
ghost use Rattle.schema.specs.Line.{line_of, line_bytes};
ghost use Rattle.schema.specs.Table.{cell, held};
ghost use Rattle.step.specs.Codes.{Code, Settled, result_of};
ghost use Rattle.lines.specs.Turning.{number_of, link, TurnsSecond, CallsReady, TurnsCalls, TurnReady, Turns};

use cells::{Caller, Cell, cell_number};
use rows::write_row;
use rules::{Act, System};
use std::mem::replace;

// What is next at a pair: a pair that it calls and that has no line yet; or its own line, with the numbers of the lines of the pairs that it
// calls, counted from 1, both 0 for a leaf.
#[derive(Drop)]
pub enum Turn {
    Down(u32, u32),
    Line(u32, u32),
}

// Where the writer stands: at a pair, with so many lines written.
#[derive(Clone, Copy)]
pub struct Stand {
    pub variable: u32,
    pub position: u32,
    pub lines: u32,
}

// The number that the work slice holds for a pair.
fn number_at(n: usize, work: &[u32], variable: u32, position: u32) -> u32
    requires { (1 ≤ variable) × (variable ≤ 256) × (n ≤ 4096) × (position ≤ n) × (cell n (variable at position) < length work.now) }
    ensures { result ≡ number_of n work.now (variable at position) }
{
    work[cell_number(n, variable, position)]
}

// What is next, the first called pair having a line: the second one, if it has none.
fn turn_second(n: usize, work: &[u32], number: u32, variable: u32, position: u32) -> Turn
    requires { (1 ≤ variable) × (variable ≤ 256) × (n ≤ 4096) × (position ≤ n) × (cell n (variable at position) < length work.now) }
    ensures { TurnsSecond n work.now number (variable at position) result }
{
    let found = number_at(n, work, variable, position);
    if found == 0 {
        return Turn::Down(variable, position);
    }
    Turn::Line(number / 2, found / 2)
}

// What is next at a pair that calls b where it stands, then c where b ends or d where it stands.
fn turn_calls(n: usize, table: &[u32], work: &[u32], position: u32, b: u32, c: u32, d: u32) -> Turn
    requires { CallsReady n position b c d table.now work.now }
    ensures { (t : Result) → Settled n (held n table.now (b at position)) t → TurnsCalls n work.now (b at position) (second c d position t) result }
{
    let number = number_at(n, work, b, position);
    if number == 0 {
        return Turn::Down(b, position);
    }
    let first = Cell::load(table, cell_number(n, b, position));
    if first.0 == Cell::FAILURE.0 {
        return turn_second(n, work, number, d, position);
    }
    turn_second(n, work, number, c, first.0 - Cell::SUCCESS.0)
}

// What is next at a pair that has a result.
pub fn turn_at(system: System, table: &[u32], work: &[u32], variable: u32, position: u32) -> Turn
    requires { TurnReady (rule_in system.rules.now) system.input.now system.variables variable position table.now work.now }
    ensures { Turns (rule_in system.entry.rules.now) system.entry.input.now table.now work.now (variable at position) result }
{
    let Act::Calls(b, c, d) = system.act_at(variable, position) else {
        return Turn::Line(0, 0);
    };
    turn_calls(system.input.len(), table, work, position, b, c, d)
}

// Writes the line of a pair whose cell holds its result.
fn result_line(out: &mut [u8], variable: u32, position: u32, cell: Cell, first: u32, second: u32)
    requires { (length out.old ≡ 49) × Code cell.0 }
    ensures { out.new ≡ line_bytes (line_of (variable at position) (result_of cell.0) first second) }
{
    if cell.0 == Cell::FAILURE.0 {
        write_row(out, 8, &[variable, position, 1, position, first, second]);
        return;
    }
    let end = cell.0 - Cell::SUCCESS.0;
    write_row(out, 8, &[variable, position, 0, end, first, second]);
}

// Lays the line of a pair down after those already written, through a part of the output.
pub fn lay_line(n: usize, table: &[u32], out: &mut [u8], x: Stand, first: u32, second: u32)
    requires { (1 ≤ x.variable) × (x.variable ≤ 256) × (n ≤ 4096) × (x.position ≤ n) × HasCell table.now (cell n (x.variable at x.position)) × Code (held n table.now (x.variable at x.position)) × (49 * x.lines + 49 ≤ length out.old) }
    ensures { out.new ≡ take (49 * x.lines) out.old ++ (line_bytes (line_of (x.variable at x.position) (result_of (held n table.now (x.variable at x.position))) first second) ++ drop (49 * x.lines + 49) out.old) }
{
    let found = Cell::load(table, cell_number(n, x.variable, x.position));
    let start = 49 * x.lines as usize;
    result_line(
        &mut out[start..start + 49],
        x.variable,
        x.position,
        found,
        first,
        second,
    );
}

// Links a called pair to its caller.
pub fn link_down(n: usize, work: &mut [u32], x: Stand, variable: u32, position: u32)
    requires { (1 ≤ variable) × (variable ≤ 256) × (n ≤ 4096) × (position ≤ n) × (cell n (variable at position) < length work.old) × (x.variable ≤ 256) × (x.position ≤ 4096) }
    ensures { work.new ≡ set work.old (cell n (variable at position)) (link (x.variable at x.position)) }
{
    let index = cell_number(n, variable, position);
    let caller = Caller {
        variable: x.variable,
        position: x.position,
        second: true,
    };
    work[index] = caller.pack();
}

// Notes the number of a pair's line, and hands back the link that stood there.
pub fn note_line(n: usize, work: &mut [u32], x: Stand) -> u32
    requires { (1 ≤ x.variable) × (x.variable ≤ 256) × (n ≤ 4096) × (x.position ≤ n) × (cell n (x.variable at x.position) < length work.old) × (x.lines < 1048832) }
    ensures stores { work.new ≡ set work.old (cell n (x.variable at x.position)) (2 * (x.lines + 1)) }
    ensures returns { result ≡ number_of n work.old (x.variable at x.position) }
{
    let index = cell_number(n, x.variable, x.position);
    replace(&mut work[index], 2 * (x.lines + 1))
}
