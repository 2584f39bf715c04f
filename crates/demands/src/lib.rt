// What the demands ask of the calls together: proofs only.
#![tactic(auto)]
