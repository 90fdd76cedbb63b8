// Soundness is writing out: the sound tables and stores are the written-out valid plain trees, no code.
#![tactic(auto)]
