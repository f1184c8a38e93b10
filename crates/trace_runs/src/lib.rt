// No code: what a trace prints stands in specs/Plays.antt, and the theorems about it in specs/PlayRunLaws.antt.
#![tactic(auto)]
