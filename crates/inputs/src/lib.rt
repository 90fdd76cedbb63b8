// What `hubshell` prints for an input: definitions and their laws, no code.
#![tactic(auto)]
