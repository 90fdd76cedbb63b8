// Where an insert or a delete ends, by its first tests and the trace of its search: laws, no code.
#![tactic(auto)]
