// What `turns` and `paths` leave in a table's words is the plain tree's rotation, insert or delete: laws, no code.
#![tactic(auto)]
