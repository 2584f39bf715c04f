// Rule sheets from the societies' shorthand (document 02, order 1).
#![tactic(auto)]

ghost use Rattle.std.specs.Prelude.{◌≡◌, ◌≤◌, ◌<◌, IfSome, length};
ghost use Rattle.pieces.specs.Store.{number_held};
ghost use Rattle.shorthand.specs.Lines.{opened_letter, Names, LineReady, LineReads, LinesReady, LinesRead};
ghost use Rattle.shorthand.specs.Promise.{EndReady, Ends, CompilePromise};

use grammar::refusal::Refusal;
use grammar::rule::Rule;
use grammar::sheet::Rules;
use letters::number_letters;
use pieces::source::Source;
use pieces::{Piece, byte_at, call_word};
use printing::write_sheet;

// The letter, counted from A, whose line begins here, where it has none yet. `lines` says which letters have one.
#[tactic(auto, unfolding(crate::specs::Lines::opens_line))]
fn opened_letter(s: &[u8], at: usize, lines: &[bool; 26]) -> Option<usize>
    requires { at ≤ length s.now }
    ensures value { result ≡ opened_letter s.now at lines.now }
    ensures few { IfSome result (λ index. index < 26) }
{
    let letter @ b'A'..=b'Z' = byte_at(s, at) else {
        return None;
    };
    let index = usize::from(letter - b'A');
    (!lines[index] && byte_at(s, at + 1) == b'=').then_some(index)
}

// Gives a letter of this number its rule: it acts as the choice in its line.
fn name_choice(number: u32, always: u32, choice: Piece, rules: &mut Rules)
    requires { (number ≤ 256) × (always ≤ 256) × (choice.variable ≤ 257) }
    ensures { Names number always choice.variable rules.old rules.new }
{
    if let Some(index) = number.checked_sub(1) {
        rules[index as usize] = call_word(choice.variable, always, always + 1);
    }
}

// A line: a letter, `=`, a choice and byte 10.
fn read_line(
    source: &Source,
    from: Piece,
    lines: &mut [bool; 26],
    rules: &mut Rules,
) -> Result<Piece, Refusal>
    requires { LineReady source.now.text.now from }
    ensures { LineReads (number_held source.now.numbers.now) source.now.always source.now.text.now from lines.old rules.old result lines.new rules.new }
{
    let text = source.text;
    let Some(index) = opened_letter(text, from.at, lines) else {
        return Err(Refusal::Text);
    };
    let start = Piece {
        at: from.at + 2,
        variable: source.always,
        ..from
    };
    let choice = source.read_choice(start, 0, rules)?;
    if byte_at(text, choice.at) != b'\n' {
        return Err(Refusal::Text);
    }
    lines[index] = true;
    name_choice(source.numbers[index], source.always, choice, rules);
    Ok(Piece {
        at: choice.at + 1,
        ..choice
    })
}

// All lines of a text.
fn read_lines(source: &Source, from: Piece, rules: &mut Rules) -> Result<Piece, Refusal>
    requires { LinesReady source.now.text.now from }
    ensures { LinesRead (number_held source.now.numbers.now) source.now.always source.now.text.now from rules.old result rules.new }
{
    if source.text.is_empty() {
        return Err(Refusal::Text);
    }
    let mut lines = [false; 26];
    let mut here = from;
    while here.at < source.text.len() {
        here = read_line(source, here, &mut lines, rules)?;
    }
    Ok(here)
}

// Refusals 17 and 11, and else the sheet of the rules up to the last variable that is taken.
fn write_rules(text: Piece, rules: &Rules, out: &mut [u8]) -> Result<usize, Refusal>
    requires { EndReady text }
    ensures { Ends text rules.now out.old out.new result }
{
    if 256 < text.cost {
        return Err(Refusal::Allowance);
    }
    if out.len() < 26 * (text.cost as usize + 1) {
        return Err(Refusal::Output);
    }
    Ok(write_sheet(text.last, 1, u32::from(b'.'), rules, out))
}

// The sheet of a text, at the front of the output; or the first refusal, with the output as it was.
#[tactic(auto, using(crate::proofs::Compiling::few))]
pub fn compile(text: &[u8], out: &mut [u8]) -> Result<usize, Refusal>
    ensures { CompilePromise text.now out.old out.new result }
{
    let mut numbers = [0; 26];
    let count = number_letters(text, &mut numbers);
    let mut rules: Rules = [0; 256];
    rules[count as usize] = Rule::Always.word();
    rules[count as usize + 1] = Rule::Never.word();
    let first = Piece {
        at: 0,
        variable: 0,
        last: count + 2,
        cost: count + 2,
    };
    let source = Source {
        text,
        numbers: &numbers,
        always: count + 1,
    };
    let read = read_lines(&source, first, &mut rules)?;
    write_rules(read, &rules, out)
}
