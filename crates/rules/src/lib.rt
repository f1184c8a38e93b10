// The rules of the specification as plain definitions: see specs/. No code.
#![tactic(auto)]
