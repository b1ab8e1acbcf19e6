// No code: specs/ states the road from the paper form to the screen over the definitions that the contracts name, and proofs/ proves it.
#![tactic(auto)]
