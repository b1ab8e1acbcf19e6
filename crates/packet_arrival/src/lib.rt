// What is packed arrives, what is lost is dropped, and nothing is mixed: the theorems about packer and unpacker, and no code.
#![tactic(auto)]
