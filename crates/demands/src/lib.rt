// The demands of document 01 on the definitions of tables: proofs alone.
#![tactic(auto)]
