// The theory of the table walk: proofs only.
#![tactic(auto)]
