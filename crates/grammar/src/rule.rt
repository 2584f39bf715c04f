// A rule, and the word that holds it.
ghost use Rattle.std.specs.Prelude.{◌≡◌};
ghost use Rattle.grammar.specs.Rule.{Fits};
ghost use Rattle.grammar.specs.Words.{rule_for, rule_held, word};

// The rule of a variable; `Absent` where it has no line.
#[derive(Clone, Copy, PartialEq, Eq)]
pub enum Rule {
    Absent,
    Always,
    Never,
    Byte(u8),
    Class(u8),
    Call(u32, u32, u32),
}

impl Rule {
    // The word of a rule whose operands fit.
    pub fn word(self) -> u32
        requires { Fits 256 (rule_held self) }
        ensures { result ≡ word (rule_held self) }
    {
        match self {
            Rule::Absent => 0,
            Rule::Always => u32::from_be_bytes([1, 0, 0, 0]),
            Rule::Never => u32::from_be_bytes([2, 0, 0, 0]),
            Rule::Byte(byte) => u32::from_be_bytes([3, byte, 0, 0]),
            Rule::Class(class) => u32::from_be_bytes([4, class, 0, 0]),
            Rule::Call(b, c, d) => {
                u32::from_be_bytes([5, (b - 1) as u8, (c - 1) as u8, (d - 1) as u8])
            }
        }
    }
}

// The rule of a word, by its first byte; where that is no kind's, that there is none.
impl From<u32> for Rule {
    ghost from_gives = { λ w rule. rule_held rule ≡ rule_for w };

    #[tactic(auto, unfolding(crate::specs::Words::rule_for))]
    fn from(word: u32) -> Rule {
        let [kind, first, second, third] = word.to_be_bytes();
        match kind {
            1 => Rule::Always,
            2 => Rule::Never,
            3 => Rule::Byte(first),
            4 => Rule::Class(first),
            5 => Rule::Call(
                u32::from(first) + 1,
                u32::from(second) + 1,
                u32::from(third) + 1,
            ),
            _ => Rule::Absent,
        }
    }
}
