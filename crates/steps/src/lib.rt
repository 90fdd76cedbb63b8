// The search steps go as the full comparison search goes: laws, no code.
#![tactic(auto)]
