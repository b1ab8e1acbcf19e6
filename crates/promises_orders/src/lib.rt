// No code: the list of refusals and its orders are stated in specs/ as data, and proofs/ proves that each answer is the first whose condition holds.
#![tactic(auto)]
