// No code: a run of feeds to the slow gathering, computed by the checker, with the answers of the second program.
#![tactic(auto)]
