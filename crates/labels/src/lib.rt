// The order of labels: definitions and their laws, no code.
#![tactic(auto)]
