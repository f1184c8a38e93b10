// Warm starting over a contact's words: the points of its new manifolds take the impulses of the old points that they match. Rule 11.
#![tactic(auto)]

pub mod matching;
