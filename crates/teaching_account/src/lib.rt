// No code: what the quick and the slow gathering have in common is stated in specs/ and proved in proofs/, of the definitions that their contracts cite.
#![tactic(auto)]
