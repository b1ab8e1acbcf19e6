// What is said of runs of calls for two networks over one store. There is no code here: the theorems are in proofs/.
#![tactic(auto)]
