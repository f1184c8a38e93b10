// What `prunelist` answers to a text: the kept points' numbers or a refusal's. The specification, 'Prune listing'.
#![tactic(auto)]

pub mod answer;
pub mod output;
