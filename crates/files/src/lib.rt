// The saved file of a table's labels: definitions and laws, no code.
#![tactic(auto)]
