// Reads a rule sheet: the grammar that it describes, or its first refusal.
ghost use Rattle.std.specs.Prelude.{◌≡◌, ◌*◌, ◌≤◌, length};
ghost use Rattle.grammar.specs.Rule.{within, rule_of};
ghost use Rattle.grammar.specs.Sheet.{not_lines, open_line};
ghost use Rattle.grammar.specs.Reading.{rule_given, header_found, line_says, line_found, Before, rules_say, rules_found, Ready, Stored};
ghost use Rattle.grammar.specs.Promise.{told, SheetPromise};

use crate::refusal::Refusal;
use crate::rule::Rule;
use columns::fields;

// The words of the rules of variables 1 to 256.
pub type Rules = [u32; 256];

// Line 1 of a sheet: the count of variables, the start variable and the endmarker byte.
#[derive(Clone, Copy)]
pub struct Grammar {
    pub variables: u32,
    pub start: u32,
    pub endmarker: u32,
}

// Is there a line without byte 10 at its end?
fn open_line(s: &[u8], count: usize) -> bool
    requires { (26 * count ≤ length s.now) × (count ≤ 257) }
    ensures { result ≡ open_line s.now count }
{
    for k in 0..count {
        if s[26 * k + 25] != 10 {
            return true;
        }
    }
    false
}

// Refusal 1.
fn not_lines(s: &[u8]) -> bool
    ensures { result ≡ not_lines s.now }
{
    if s.len() == 0 {
        return true;
    }
    if s.len() % 26 != 0 {
        return true;
    }
    if 257 < s.len() / 26 {
        return true;
    }
    open_line(s, s.len() / 26)
}

// Line 1, for refusals 2 and 3.
fn read_header(s: &[u8]) -> Result<Grammar, Refusal>
    ensures { told result ≡ header_found s.now }
{
    let Some(numbers) = fields::<5, 5>(s, 0) else {
        return Err(Refusal::Field(1));
    };
    let [variables, start, endmarker, fourth, fifth] = numbers;
    if !within(1, 256, variables) {
        return Err(Refusal::Header);
    }
    if !within(1, variables, start) {
        return Err(Refusal::Header);
    }
    if 255 < endmarker {
        return Err(Refusal::Header);
    }
    if fourth != 0 {
        return Err(Refusal::Header);
    }
    if fifth != 0 {
        return Err(Refusal::Header);
    }
    Ok(Grammar {
        variables,
        start,
        endmarker,
    })
}

// Is x among low to high?
fn within(low: u32, high: u32, x: u32) -> bool
    ensures { result ≡ within low high x }
{
    (low..=high).contains(&x)
}

// The rule that calls x, y and z, of v variables.
#[tactic(auto, unfolding(crate::specs::Rule::rule_of))]
fn call_of(v: u32, x: u32, y: u32, z: u32) -> Option<Rule>
    ensures { rule_given result ≡ rule_of v 4 x y z }
{
    if within(1, v, x) && within(1, v, y) && within(1, v, z) {
        return Some(Rule::Call(x, y, z));
    }
    None
}

// The rule of a kind and its operands x, y and z, of v variables.
#[tactic(auto, unfolding(crate::specs::Rule::rule_of))]
fn rule_of(v: u32, kind: u32, x: u32, y: u32, z: u32) -> Option<Rule>
    ensures { rule_given result ≡ rule_of v kind x y z }
{
    if kind == 4 {
        return call_of(v, x, y, z);
    }
    if y != 0 || z != 0 {
        return None;
    }
    match kind {
        0 if x == 0 => Some(Rule::Always),
        1 if x == 0 => Some(Rule::Never),
        2 if x <= 255 => Some(Rule::Byte(x as u8)),
        3 if within(1, 6, x) => Some(Rule::Class(x as u8)),
        _ => None,
    }
}

// A rule line after the variable of the line before, for refusals 2, 4 and 5: its variable, and the word of its rule.
fn read_rule(s: &[u8], line: u32, variables: u32, before: u32) -> Result<(u32, u32), Refusal>
    requires { Before s.now line variables before }
    ensures { line_says result ≡ line_found s.now line }
{
    let Some(numbers) = fields::<5, 5>(s, 26 * (line as usize - 1)) else {
        return Err(Refusal::Field(line));
    };
    let [variable, kind, x, y, z] = numbers;
    if !within(1, variables, variable) {
        return Err(Refusal::RuleVariable(line));
    }
    if variable <= before {
        return Err(Refusal::RuleVariable(line));
    }
    match rule_of(variables, kind, x, y, z) {
        Some(rule) => Ok((variable, rule.word())),
        None => Err(Refusal::Rule(line)),
    }
}

// The rule lines of a sheet of so many lines, each rule at its variable's place.
fn read_rules(s: &[u8], variables: u32, count: u32, rules: &mut Rules) -> Result<(), Refusal>
    requires { Ready s.now variables count rules.old }
    ensures result_value { rules_say result ≡ rules_found s.now }
    ensures stored { Stored s.now result rules.new }
{
    let mut before: u32 = 0;
    for line in 2..count + 1 {
        let (variable, word) = read_rule(s, line, variables, before)?;
        rules[variable as usize - 1] = word;
        before = variable;
    }
    Ok(())
}

// The grammar of a sheet, its rules in the lent array; or the first refusal, with the array as it was.
pub fn read_sheet(s: &[u8], rules: &mut Rules) -> Result<Grammar, Refusal>
    ensures { SheetPromise s.now rules.old rules.new result }
{
    if not_lines(s) {
        return Err(Refusal::NotLines);
    }
    let grammar = read_header(s)?;
    let mut fresh = [0u32; 256];
    let count = (s.len() / 26) as u32;
    read_rules(s, grammar.variables, count, &mut fresh)?;
    *rules = fresh;
    Ok(grammar)
}
