// The theory of the run: what its steps are, that it ends, and what its ends mean. Definitions and lemmas, and no code.
#![tactic(auto)]
