// Theorems about the rules of the specification: see specs/. No code.
#![tactic(auto)]
