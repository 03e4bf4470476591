// Ordered groups: what amounts stand for. Definitions and lemmas, and no code.
#![tactic(auto)]
