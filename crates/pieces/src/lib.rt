// The pieces of a text of the societies' shorthand (document 02, order 1): choices, rows and items. Three readers that call each other, with a loop
// in two of them, so that only brackets nest calls. Each stores the rules of what it reads.
#![tactic(auto)]

ghost use Rattle.std.specs.Prelude.{◌≡◌, true, ℕ, ◌+◌, ◌-◌, ◌≤◌, ◌<◌, get_or};
ghost use Rattle.grammar.specs.Rule.{Rule, byte, call};
ghost use Rattle.grammar.specs.Words.{word};
ghost use Rattle.notation.specs.Emit.{put, joined, bracketed};
ghost use Rattle.notation.specs.Text.{Bracket, closer};
ghost use Rattle.pieces.specs.Store.{capped, number_held, Few, Makes};
ghost use Rattle.pieces.specs.Piece.{closing, begins_item, items, rows, choices, Reads, EndsItem, EndsRow, EndsChoice, Ready, LeafReady};

pub mod source;

use grammar::refusal::Refusal;
use grammar::sheet::Rules;
use source::Source;

// How deep brackets nest.
const DEEPEST: u32 = 16;

// What was read: the position behind it, the variable that acts as it, the last variable that is taken, the cost so far. The last three stop at 257.
#[derive(Clone, Copy)]
pub struct Piece {
    pub at: usize,
    pub variable: u32,
    pub last: u32,
    pub cost: u32,
}

// The byte at a position, 0 past the end.
pub fn byte_at(s: &[u8], at: usize) -> u8
    ensures { result ≡ get_or s.now at 0 }
{
    s.get(at).copied().unwrap_or(0)
}

// The byte that closes a bracket, where this byte opens one.
fn closer_of(b: u8) -> Option<u8>
    ensures { result ≡ closing b }
{
    match b {
        b'(' => Some(b')'),
        b'[' => Some(b']'),
        _ => None,
    }
}

// Does an item begin with this byte?
fn begins_item(b: u8) -> bool
    ensures { result ≡ begins_item b }
{
    matches!(b, b'%' | b'\'' | b'(' | b'[' | b'A'..=b'Z')
}

// The cost and some more, up to 257.
fn raised(cost: u32, by: u32) -> u32
    requires { (cost ≤ 257) × (by ≤ 3) }
    ensures { result ≡ capped (cost + by) }
{
    (cost + by).min(257)
}

// The byte of a word that stands for a variable: the variable less 1. (A letter that the text does not have may be numbered 0.)
fn operand(variable: u32) -> u32
    ensures { result ≡ variable - 1 }
{
    variable.saturating_sub(1)
}

// The word of a rule for a byte.
fn byte_word(b: u8) -> u32
    ensures { result ≡ word (byte b) }
{
    grammar::rule::Rule::Byte(b).word()
}

// The word of a rule that calls x, y and z.
pub fn call_word(x: u32, y: u32, z: u32) -> u32
    requires { (x ≤ 257) × (y ≤ 257) × (z ≤ 257) }
    ensures { result ≡ word (call x y z) }
{
    16777216 * 5 + 65536 * operand(x) + 256 * operand(y) + operand(z)
}

// What was read, with a rule for the next variable, where there is room: that variable acts as it all, which ends at a position.
fn with_rule(at: usize, p: Piece, code: u32, rules: &mut Rules) -> Piece
    requires { Few p }
    ensures { (x : Rule) → code ≡ word x → Makes (λ z. put z x) at p rules.old result rules.new }
{
    let index = p.last as usize;
    if rules.len() <= index {
        return Piece {
            at,
            variable: 257,
            last: 257,
            ..p
        };
    }
    rules[index] = code;
    let variable = p.last + 1;
    Piece {
        at,
        variable,
        last: variable,
        ..p
    }
}

// The row that `row` and then `item` are: the item alone where the row always succeeds.
fn join(always: u32, row: Piece, item: Piece, rules: &mut Rules) -> Piece
    requires { (always ≤ 256) × Few row × Few item }
    ensures { (number : ℕ → ℕ) → Makes (joined number always (always + 1) row.variable item.variable) item.at item rules.old result rules.new }
{
    if row.variable == always {
        return item;
    }
    let code = call_word(row.variable, item.variable, always + 1);
    with_rule(item.at, item, code, rules)
}

// The choice that `choice` or else `row` are.
fn either(always: u32, choice: Piece, row: Piece, rules: &mut Rules) -> Piece
    requires { (always ≤ 256) × Few choice × Few row }
    ensures { Makes (λ z. put z (call choice.variable always row.variable)) row.at row rules.old result rules.new }
{
    let code = call_word(choice.variable, always, row.variable);
    with_rule(row.at, row, code, rules)
}

// The item that a choice in brackets is, which ends at a position, by the bracket that closes it. In square ones it "must succeed, takes nothing".
fn in_brackets(at: usize, always: u32, closing: u8, choice: Piece, rules: &mut Rules) -> Piece
    requires { (always ≤ 256) × Few choice }
    ensures { (number : ℕ → ℕ) (k : Bracket) → closing ≡ closer k → Makes (bracketed number always (always + 1) k choice.variable) at choice rules.old result rules.new }
{
    if closing == b')' {
        return Piece { at, ..choice };
    }
    let code = call_word(choice.variable, always + 1, always);
    let refused = with_rule(at, choice, code, rules);
    let again = call_word(refused.variable, always + 1, always);
    with_rule(at, refused, again, rules)
}

// What was read, and nothing more taken: by this variable, up to a position, at some cost more.
fn moved(p: Piece, at: usize, variable: u32, by: u32) -> Piece
    requires { Few p × (by ≤ 3) }
    ensures { result ≡ Rattle.pieces.specs.Store.moved p at variable by }
{
    Piece {
        at,
        variable,
        cost: raised(p.cost, by),
        ..p
    }
}

// A byte between single quotes: a rule of its own.
fn read_quoted(s: &[u8], from: Piece, rules: &mut Rules) -> Result<Piece, Refusal>
    requires { Few from × (get_or s.now from.at 0 ≡ 39) }
    ensures { (number : ℕ → ℕ) (E depth : ℕ) → Reads (items number E) s.now depth from rules.old (EndsItem from) result rules.new }
{
    let [_, byte, b'\'', ..] = &s[from.at..] else {
        return Err(Refusal::Text);
    };
    let priced = moved(from, from.at, from.variable, 3);
    Ok(with_rule(from.at + 3, priced, byte_word(*byte), rules))
}

impl Source<'_> {
    // An item that is no bracket. Each item costs 3.
    fn read_leaf(&self, from: Piece, rules: &mut Rules) -> Result<Piece, Refusal>
        requires { LeafReady self.now.text.now from }
        ensures { (depth : ℕ) → Reads (items (number_held self.now.numbers.now) self.now.always) self.now.text.now depth from rules.old (EndsItem from) result rules.new }
    {
        match byte_at(self.text, from.at) {
            b'\'' => read_quoted(self.text, from, rules),
            b'%' => Ok(moved(from, from.at + 1, self.always + 1, 3)),
            letter => {
                let variable = self.numbers[usize::from(letter - b'A')];
                Ok(moved(from, from.at + 1, variable, 3))
            }
        }
    }

    // A choice: rows parted by slashes. It ends before any other byte, which the caller judges.
    #[cycle(read_choice_read_item_read_row)]
    pub fn read_choice(&self, from: Piece, depth: u32, rules: &mut Rules) -> Result<Piece, Refusal>
        requires { Ready self.now.text.now depth from }
        ensures { Reads (choices (number_held self.now.numbers.now) self.now.always) self.now.text.now depth from rules.old (EndsChoice self.now.text.now) result rules.new }
    {
        let mut here = self.read_row(from, depth, rules)?;
        while byte_at(self.text, here.at) == b'/' {
            let next = moved(here, here.at + 1, here.variable, 1);
            let row = self.read_row(next, depth, rules)?;
            here = either(self.always, here, row, rules);
        }
        Ok(here)
    }

    // A row: items one after another, perhaps none. The empty row always succeeds.
    #[cycle(read_choice_read_item_read_row)]
    fn read_row(&self, from: Piece, depth: u32, rules: &mut Rules) -> Result<Piece, Refusal>
        requires { Ready self.now.text.now depth from }
        ensures { Reads (rows (number_held self.now.numbers.now) self.now.always) self.now.text.now depth from rules.old (EndsRow self.now.text.now) result rules.new }
    {
        let mut here = Piece {
            variable: self.always,
            ..from
        };
        while begins_item(byte_at(self.text, here.at)) {
            let item = self.read_item(here, depth, rules)?;
            here = join(self.always, here, item, rules);
        }
        Ok(here)
    }

    // An item. "Brackets nest to 16."
    #[cycle(read_choice_read_item_read_row)]
    fn read_item(&self, from: Piece, depth: u32, rules: &mut Rules) -> Result<Piece, Refusal>
        requires { Ready self.now.text.now depth from × (begins_item (get_or self.now.text.now from.at 0) ≡ true) }
        ensures { Reads (items (number_held self.now.numbers.now) self.now.always) self.now.text.now depth from rules.old (EndsItem from) result rules.new }
    {
        let Some(closing) = closer_of(byte_at(self.text, from.at)) else {
            return self.read_leaf(from, rules);
        };
        if depth == DEEPEST {
            return Err(Refusal::Nesting);
        }
        let inner = moved(from, from.at + 1, from.variable, 3);
        let choice = self.read_choice(inner, depth + 1, rules)?;
        if byte_at(self.text, choice.at) != closing {
            return Err(Refusal::Text);
        }
        Ok(in_brackets(choice.at + 1, self.always, closing, choice, rules))
    }
}
