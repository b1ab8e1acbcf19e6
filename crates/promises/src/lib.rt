// No code: what is promised of the whole library is stated in specs/ and proved in proofs/, of the definitions that the contracts cite.
#![tactic(auto)]
