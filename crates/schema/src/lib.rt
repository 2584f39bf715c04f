// What a rule sheet means: definitions and their laws only.
#![tactic(auto)]
