// The plain tree: definitions and their laws, no code.
#![tactic(auto)]
