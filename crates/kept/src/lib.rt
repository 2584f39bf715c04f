// Tables that are kept from call to call: definitions and laws, no code.
#![tactic(auto)]
