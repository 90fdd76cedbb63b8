// The lent words and bytes: definitions of the table, the search steps, soundness, the calls' outcomes and the claims,
// no code.
#![tactic(auto)]
