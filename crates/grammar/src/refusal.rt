// Why a call is refused.
ghost use Rattle.std.specs.Prelude.{◌≡◌};
ghost use Rattle.grammar.specs.Numbers.{number_of, line_of};

// A refusal, named after what is at fault, in the order of the numbers (document 01, "Who can bring on which number"; document 02). A case
// that names a line of the sheet carries it, counted from 1.
#[derive(Clone, Copy, PartialEq, Eq)]
pub enum Refusal {
    NotLines,
    Field(u32),
    Header,
    Variables,
    RuleVariable(u32),
    Rule(u32),
    LongEntry,
    Variable,
    Place,
    Room,
    Output,
    Text,
    Nesting,
    Allowance,
    Corrected,
    Cell,
    Tables,
    Entries,
}

impl Refusal {
    // The number of the refusal.
    pub fn number(self) -> u32
        ensures { result ≡ number_of self }
    {
        match self {
            Refusal::NotLines => 1,
            Refusal::Field(_) => 2,
            Refusal::Header => 3,
            Refusal::Variables => 3,
            Refusal::RuleVariable(_) => 4,
            Refusal::Rule(_) => 5,
            Refusal::LongEntry => 6,
            Refusal::Variable => 8,
            Refusal::Place => 9,
            Refusal::Room => 10,
            Refusal::Output => 11,
            Refusal::Text => 15,
            Refusal::Nesting => 16,
            Refusal::Allowance => 17,
            Refusal::Corrected => 18,
            Refusal::Cell => 19,
            Refusal::Tables => 20,
            Refusal::Entries => 21,
        }
    }

    // The line of the sheet that is at fault, or 0.
    pub fn line(self) -> u32
        ensures { result ≡ line_of self }
    {
        match self {
            Refusal::Header => 1,
            Refusal::Field(line) | Refusal::RuleVariable(line) | Refusal::Rule(line) => line,
            _ => 0,
        }
    }
}
