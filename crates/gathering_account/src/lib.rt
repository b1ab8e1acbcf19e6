// No code: what a run of feeds gathers is stated in specs/ and proved in proofs/, of the definitions that the contracts of feeding and handing out cite.
#![tactic(auto)]
