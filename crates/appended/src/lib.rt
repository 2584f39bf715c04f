// Text added at the end of an input: definitions and laws.
#![tactic(auto)]
