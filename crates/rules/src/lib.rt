// The functions that look at a rule, and the tests of what every question is handed.
#![tactic(auto)]

ghost use Rattle.std.specs.Prelude.{◌≡◌, ◌≤◌, length, IsSome, option_map, slice_get};
ghost use Rattle.classes.specs.Class.{class_of};
ghost use Rattle.grammar.specs.Words.{rule_in, first_in, second_in};
ghost use Rattle.schema.specs.Derivation.{act, ◌at◌};
ghost use Rattle.schema.specs.Examined.{leaf_reach};
ghost use Rattle.rules.specs.Act.{told, by_seen};
ghost use Rattle.rules.specs.Admission.{Admission};

use classes::class_of;
use grammar::refusal::Refusal;
use grammar::rule::Rule;
use grammar::sheet::{Grammar, Rules, read_sheet};

// What a rule does at a position: success ending at a position, failure, missing where the variable has no rule, or a call of three variables.
#[derive(Drop)]
pub enum Act {
    Success(u32),
    Failure,
    Missing,
    Calls(u32, u32, u32),
}

// A rule that wants one byte or class, by what is seen at a position. Order 11: "a byte or class rule at place n fails".
fn one_byte(position: u32, seen: Option<u8>, wanted: u8) -> Act
    requires { IsSome seen → position ≤ 4096 }
    ensures { told result ≡ by_seen position wanted seen }
{
    match seen {
        Some(found) if found == wanted => Act::Success(position + 1),
        Some(_) => Act::Failure,
        None => Act::Failure,
    }
}

// The byte at a position, if there is one.
fn byte_at(input: &[u8], position: u32) -> Option<u8>
    ensures { result ≡ slice_get input.now position }
{
    input.get(position as usize).copied()
}

// The class of that byte.
fn class_at(input: &[u8], position: u32) -> Option<u8>
    ensures { result ≡ option_map class_of (slice_get input.now position) }
{
    byte_at(input, position).map(class_of)
}

// The system of calls that the rules of a sheet, words of so many variables, make of an input.
#[derive(Clone, Copy)]
pub struct System<'a> {
    pub rules: &'a Rules,
    pub variables: u32,
    pub input: &'a [u8],
}

impl System<'_> {
    // What the rule of a variable does at a position.
    pub fn act_at(self, variable: u32, position: u32) -> Act
        requires { (1 ≤ variable) × (variable ≤ 256) × (length self.input.now ≤ 4096) }
        ensures { told result ≡ act (rule_in self.entry.rules.now) self.entry.input.now (variable at position) }
    {
        match Rule::from(self.rules[variable as usize - 1]) {
            Rule::Call(b, c, d) => Act::Calls(b, c, d),
            Rule::Byte(wanted) => one_byte(position, byte_at(self.input, position), wanted),
            Rule::Class(wanted) => one_byte(position, class_at(self.input, position), wanted),
            Rule::Always => Act::Success(position),
            Rule::Never => Act::Failure,
            Rule::Absent => Act::Missing,
        }
    }
}

// How far a leaf looks, at a position: one past it where it looks at a byte.
pub fn leaf_reach(rules: &Rules, variable: u32, position: u32) -> u32
    requires { (1 ≤ variable) × (variable ≤ 256) × (position ≤ 4096) }
    ensures { result ≡ leaf_reach (rule_in rules.now variable) position }
{
    match Rule::from(rules[variable as usize - 1]) {
        Rule::Byte(_) | Rule::Class(_) => position + 1,
        _ => position,
    }
}

// The variable that a kind 4 rule calls first. Of any other rule, what its word's byte says.
pub fn first_of(rules: &Rules, variable: u32) -> u32
    requires { (1 ≤ variable) × (variable ≤ 256) }
    ensures { result ≡ first_in rules.now variable }
{
    let [_, first, _, _] = rules[variable as usize - 1].to_be_bytes();
    u32::from(first) + 1
}

// The variable that a kind 4 rule calls second: C on success, D on failure. Of any other rule, what its word's bytes say.
pub fn second_of(rules: &Rules, variable: u32, flag: bool) -> u32
    requires { (1 ≤ variable) × (variable ≤ 256) }
    ensures { result ≡ second_in rules.now variable flag }
{
    let [_, _, after_success, after_failure] = rules[variable as usize - 1].to_be_bytes();
    u32::from(if flag { after_success } else { after_failure }) + 1
}

// The grammar of a sheet, its rules in the lent array, for a question about an input, a variable and a position; or the first of refusals
// 1 to 6, 8 and 9.
pub fn admit(
    sheet: &[u8],
    input: &[u8],
    variable: u32,
    position: u32,
    rules: &mut Rules,
) -> Result<Grammar, Refusal>
    ensures { Admission sheet.now input.now variable position rules.old rules.new result }
{
    let grammar = read_sheet(sheet, rules)?;
    if 4096 < input.len() {
        return Err(Refusal::LongEntry);
    }
    if variable < 1 {
        return Err(Refusal::Variable);
    }
    if grammar.variables < variable {
        return Err(Refusal::Variable);
    }
    if input.len() < position as usize {
        return Err(Refusal::Place);
    }
    Ok(grammar)
}
