// No code: that the premises of demand 3 can be met, and that each of them is needed.
#![tactic(auto)]
