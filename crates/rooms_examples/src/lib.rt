// No code: runs of calls for two networks, computed by the checker, with the answers of the second program.
#![tactic(auto)]
