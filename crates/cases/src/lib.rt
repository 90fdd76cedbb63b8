// The starred cases of document 01 in one table, and that the definitions compute them: laws, no code.
#![tactic(auto)]
