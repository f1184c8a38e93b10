// What shapes propose for a contact, and its hook's answer, in a lent row of words.
#![tactic(auto)]

pub mod proposal;
