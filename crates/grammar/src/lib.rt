// The rule sheet of a grammar.
#![tactic(auto)]

pub mod refusal;
pub mod rule;
pub mod sheet;
