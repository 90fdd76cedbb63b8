// The walks of the soundness test decide soundness: laws, no code.
#![tactic(auto)]
