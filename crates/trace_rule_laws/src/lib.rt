// Theorems about the traces of docs/TRACES.md: see specs/. No code.
#![tactic(auto)]
