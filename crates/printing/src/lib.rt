// Writes the rule sheet of an array of rules.
#![tactic(auto)]

ghost use Rattle.std.specs.Prelude.{◌≡◌, ◌+◌, ◌≤◌, length};
ghost use Rattle.grammar.specs.Printing.{text, rule_rows, rules_of};
ghost use Rattle.grammar.specs.Words.{rule_for, rule_held, rule_in};
ghost use Rattle.printing.specs.Listing.{numbers_of, line_of, Puts, SheetReady, SheetPut};

use grammar::rule::Rule;
use grammar::sheet::Rules;
use rows::write_row;

// The numbers of the line of a variable, where it has a rule.
fn numbers_of(variable: u32, rule: Rule) -> Option<[u32; 5]>
    ensures { result ≡ numbers_of variable (rule_held rule) }
{
    match rule {
        Rule::Absent => None,
        Rule::Always => Some([variable, 0, 0, 0, 0]),
        Rule::Never => Some([variable, 1, 0, 0, 0]),
        Rule::Byte(byte) => Some([variable, 2, u32::from(byte), 0, 0]),
        Rule::Class(class) => Some([variable, 3, u32::from(class), 0, 0]),
        Rule::Call(b, c, d) => Some([variable, 4, b, c, d]),
    }
}

// Puts the line of a variable into the output, where it has a rule, and gives the position behind it.
fn put_rule(out: &mut [u8], at: usize, variable: u32, word: u32) -> usize
    requires { at + 26 ≤ length out.old }
    ensures { Puts at (line_of variable (rule_for word)) out.old out.new result }
{
    let Some(numbers) = numbers_of(variable, Rule::from(word)) else {
        return at;
    };
    write_row(&mut out[at..at + 26], 5, &numbers);
    at + 26
}

// Puts the lines of all rules into the output, behind line 1, and gives the position behind them.
fn put_rules(variables: u32, rules: &Rules, out: &mut [u8]) -> usize
    requires { SheetReady variables out.old }
    ensures { Puts 26 (text (rule_rows (rules_of variables (rule_in rules.now)))) out.old out.new result }
{
    let mut at: usize = 26;
    for variable in 1..=variables {
        at = put_rule(out, at, variable, rules[variable as usize - 1]);
    }
    at
}

// Writes the sheet of an array of rules to the front of the output, and gives its length.
pub fn write_sheet(
    variables: u32,
    start: u32,
    endmarker: u32,
    rules: &Rules,
    out: &mut [u8],
) -> usize
    requires { SheetReady variables out.old }
    ensures { SheetPut variables start endmarker (rule_in rules.now) out.old out.new result }
{
    write_row(&mut out[0..26], 5, &[variables, start, endmarker, 0, 0]);
    put_rules(variables, rules, out)
}
