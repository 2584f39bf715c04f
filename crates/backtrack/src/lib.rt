// The backtracking machine.
#![tactic(auto)]

ghost use Rattle.std.specs.Prelude.{cond, List, ◌∷◌, ◌≡◌, ℕ, ◌+◌, ◌*◌, ◌/◌, ◌≤◌, length};
ghost use Rattle.grammar.specs.Words.{rule_in};
ghost use Rattle.rules.specs.Act.{told as does};
ghost use Rattle.schema.specs.Derivation.{◌at◌, result as ended_with, success, failure};
ghost use Rattle.schema.specs.Machine.{Frame, frame, stage0, stage0_of, step};
ghost use Rattle.backtrack.specs.Run.{RunsTo, Runs};
ghost use Rattle.backtrack.specs.Frames.{flag_of, stack_in, state_in, pushed, Valid, Says, Plans, Turns};

use grammar::refusal::Refusal;
use grammar::sheet::Rules;
use rules::{Act, System, admit, second_of};
use std::ops::ControlFlow;

// What a run ends with: an outcome (success with its end), spent or no frame, each with the moves made.
#[derive(Clone, Copy, PartialEq, Eq)]
pub enum Ending {
    Success(u32, u32),
    Failure(u32),
    Missing(u32),
    Spent(u32),
    NoFrame(u32),
}

// The machine's state but for the frames: the flag, true for s; the position; the moves made; the number of frames.
#[derive(Clone, Copy)]
struct Registers {
    flag: bool,
    position: u32,
    moves: u32,
    depth: usize,
}

// A move: a pop, with the flag and the position after it; a push, with the flag after it, the next stage of the top frame, and the variable and
// the position of the frame above it.
#[derive(Clone, Copy)]
enum Move {
    Pop(bool, u32),
    Push(bool, u32, u32, u32),
}

// What a move comes to: the registers after it, or what ends the run before it.
type Turn = ControlFlow<Ending, Registers>;

// Where a call comes back to: the position on success, the start on failure.
fn back(x: Registers, start: u32) -> u32
    ensures { result ≡ cond x.flag x.position start }
{
    if x.flag { x.position } else { start }
}

// The outcome with no frame left.
fn bottom(x: Registers) -> Ending
    ensures { Says x.moves (ended_with (cond x.flag (success x.position) failure)) result }
{
    if x.flag {
        Ending::Success(x.position, x.moves)
    } else {
        Ending::Failure(x.moves)
    }
}

// What comes next at stage 0, by what the rule does.
fn plan_of(act: Act, x: Registers) -> ControlFlow<Ending, Move>
    ensures { (X i : ℕ) (stack : List Frame) → Plans x.moves (frame X i stage0 ∷ stack) (stage0_of (does act) (flag_of x.flag) X i x.position x.moves stack) result }
{
    match act {
        Act::Success(end) => ControlFlow::Continue(Move::Pop(true, end)),
        Act::Failure => ControlFlow::Continue(Move::Pop(false, x.position)),
        Act::Missing => ControlFlow::Break(Ending::Missing(x.moves)),
        Act::Calls(b, _, _) => ControlFlow::Continue(Move::Push(x.flag, 1, b, x.position)),
    }
}

// What comes next: an outcome, which ends the run, or a move.
#[tactic(auto, using(crate::proofs::Plans::plans))]
fn peek(system: System, frames: &[u32], x: Registers) -> ControlFlow<Ending, Move>
    requires { (length system.input.now ≤ 4096) × Valid (rule_in system.rules.now) frames.now x }
    ensures { Plans x.moves (stack_in frames.now x.depth) (step (rule_in system.entry.rules.now) system.entry.input.now (state_in frames.now x)) result }
{
    if x.depth == 0 {
        return ControlFlow::Break(bottom(x));
    }
    let top = (x.depth - 1) * 3;
    let variable = frames[top];
    match frames[top + 2] {
        0 => plan_of(system.act_at(variable, x.position), x),
        1 => {
            let called = second_of(system.rules, variable, x.flag);
            let position = back(x, frames[top + 1]);
            ControlFlow::Continue(Move::Push(true, 2, called, position))
        }
        _ => {
            let position = back(x, frames[top + 1]);
            ControlFlow::Continue(Move::Pop(x.flag, position))
        }
    }
}

// A frame at stage 0 above the first `depth` frames.
#[tactic(auto, using(crate::proofs::Stack::stack_frame))]
fn put_frame(frames: &mut [u32], depth: usize, variable: u32, position: u32)
    requires { depth * 3 + 3 ≤ length frames.old }
    ensures { stack_in frames.new (depth + 1) ≡ frame variable position stage0 ∷ stack_in frames.old depth }
{
    let base = depth * 3;
    frames[base] = variable;
    frames[base + 1] = position;
    frames[base + 2] = 0;
}

// The top frame at another stage, and a frame above it.
#[tactic(auto, using(crate::proofs::Stack::stack_stage))]
fn push(frames: &mut [u32], depth: usize, stage: u32, variable: u32, position: u32)
    requires { (1 ≤ depth) × (depth * 3 + 3 ≤ length frames.old) }
    ensures { stack_in frames.new (depth + 1) ≡ pushed stage variable position (stack_in frames.old depth) }
{
    frames[depth * 3 - 1] = stage;
    put_frame(frames, depth, variable, position);
}

// One move; or what ends the run before it: an outcome, else spent, else no frame.
fn advance(system: System, frames: &mut [u32], x: Registers, budget: u32) -> Turn
    requires { (length system.input.now ≤ 4096) × (x.moves ≤ budget) × Valid (rule_in system.rules.now) frames.old x }
    ensures { Turns (rule_in system.entry.rules.now) system.entry.input.now budget (length frames.old / 3) (state_in frames.old x) frames.new result }
{
    let next = peek(system, frames, x)?;
    let left = budget - x.moves;
    if left == 0 {
        return ControlFlow::Break(Ending::Spent(x.moves));
    }
    let moves = x.moves + 1;
    match next {
        Move::Pop(flag, position) => {
            let below = Registers {
                flag,
                position,
                moves,
                depth: x.depth - 1,
            };
            ControlFlow::Continue(below)
        }
        Move::Push(flag, stage, variable, position) => {
            if frames.len() - x.depth * 3 < 3 {
                return ControlFlow::Break(Ending::NoFrame(x.moves));
            }
            push(frames, x.depth, stage, variable, position);
            let above = Registers {
                flag,
                position,
                moves,
                depth: x.depth + 1,
            };
            ControlFlow::Continue(above)
        }
    }
}

// The machine's run over the rules' words.
fn run_rules(
    system: System,
    variable: u32,
    position: u32,
    frames: &mut [u32],
    budget: u32,
) -> Ending
    requires { (1 ≤ variable) × (variable ≤ 256) × (length system.input.now ≤ 4096) }
    ensures { RunsTo (rule_in system.entry.rules.now) system.entry.input.now (variable at position) frames.old frames.new budget (Ok result) }
{
    if frames.len() < 3 {
        return Ending::NoFrame(0);
    }
    put_frame(frames, 0, variable, position);
    let mut x = Registers {
        flag: true,
        position,
        moves: 0,
        depth: 1,
    };
    loop {
        match advance(system, frames, x, budget) {
            ControlFlow::Break(ending) => return ending,
            ControlFlow::Continue(next) => x = next,
        }
    }
}

// The machine's run on a question: its ending, or the first of refusals 1 to 6, 8 and 9 with the frames as they were.
pub fn run(
    sheet: &[u8],
    input: &[u8],
    variable: u32,
    position: u32,
    frames: &mut [u32],
    budget: u32,
) -> Result<Ending, Refusal>
    ensures { Runs sheet.now input.now (variable at position) frames.old frames.new budget result }
{
    let mut rules: Rules = [0u32; 256];
    let grammar = admit(sheet, input, variable, position, &mut rules)?;
    let system = System {
        rules: &rules,
        variables: grammar.variables,
        input,
    };
    Ok(run_rules(system, variable, position, frames, budget))
}
