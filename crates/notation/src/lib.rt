// The societies' shorthand: definitions and laws.
#![tactic(auto)]
