// No code: the claim about whole lists of calls stands in specs/Claim.antt, and its theorem in specs/Demand.antt.
#![tactic(auto)]
