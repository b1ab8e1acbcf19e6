// No code: what is promised of the screen box's choice is stated in specs/ and proved in proofs/, of the definitions that its contract cites.
#![tactic(auto)]
