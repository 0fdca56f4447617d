// No code: what follows for floating numbers, and worked steps.
#![tactic(auto)]
