// The traces of docs/TRACES.md as plain definitions: see specs/. No code.
#![tactic(auto)]
