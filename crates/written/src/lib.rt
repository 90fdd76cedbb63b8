// What a written-out table and store hold, and that they are sound: laws, no code.
#![tactic(auto)]
