// What the exported calls give and leave, for each index: definitions and laws, no code.
#![tactic(auto)]
