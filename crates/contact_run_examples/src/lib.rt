// Lists of calls whose runs are computed: see specs/. No code.
#![tactic(auto)]
