// The end of a question: closes what the walk left open, and answers.
#![tactic(auto)]

ghost use Rattle.std.specs.Prelude.{◌≡◌};
ghost use Rattle.schema.specs.Derivation.{◌at◌, result as derived};
ghost use Rattle.schema.specs.Table.{cells};
ghost use Rattle.step.specs.Codes.{Code, result_of};
ghost use Rattle.finish.specs.Reply.{reply, reply_of};
ghost use Rattle.finish.specs.Closing.{CloseReady, Closes};
ghost use Rattle.finish.specs.Finish.{FinishReady, Finishes};

use cells::{Caller, Cell, cell_number};
use step::Walk;

// What a question is answered, with the count of decided cells: success with its end, failure; loop or a missing rule
// with the variable and the position that are named.
#[derive(Clone, Copy)]
pub enum Answer {
    Success(u32, u32),
    Failure(u32),
    Loop(u32, u32, u32),
    Missing(u32, u32, u32),
}

// Stores an outcome in every open cell, from that of b at q back to the asked pair, by the callers in the work slice.
fn close(
    n: usize,
    variables: u32,
    b: u32,
    q: u32,
    depth: usize,
    outcome: Cell,
    table: &mut [u32],
    work: &[u32],
)
    requires { CloseReady n variables b q depth outcome.0 outcome.1 table.old work.now }
    ensures { Closes (cells variables n) outcome.0 table.old table.new }
{
    outcome.store(table, cell_number(n, b, q));
    for word in work[..depth].iter().rev() {
        let caller = Caller::unpack(*word);
        outcome.store(table, cell_number(n, caller.variable, caller.position));
    }
}

// The answer of the number of a result.
fn settled(code: u32, count: u32) -> Answer
    requires { Code code }
    ensures { reply_of result ≡ reply (derived (result_of code)) (0 at 0) count }
{
    if code == Cell::FAILURE.0 {
        return Answer::Failure(count);
    }
    Answer::Success(code - Cell::SUCCESS.0, count)
}

// Closes what the walk left open, and answers with the count.
pub fn finish(
    n: usize,
    variables: u32,
    end: Walk,
    count: u32,
    table: &mut [u32],
    work: &[u32],
) -> Answer
    requires { FinishReady n variables table.old work.now end }
    ensures { Finishes n variables end count table.old table.new result }
{
    match end {
        Walk::Settled(code) => settled(code, count),
        Walk::Loop(b, q, a, p, depth) => {
            close(n, variables, a, p, depth, Cell::LOOP, table, work);
            Answer::Loop(b, q, count)
        }
        Walk::Missing(a, p, depth) => {
            close(n, variables, a, p, depth, Cell::MISSING, table, work);
            Answer::Missing(a, p, count)
        }
    }
}
