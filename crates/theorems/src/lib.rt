// No function: the headline theorems of the calls, by name in proofs/Headlines.antt.
#![tactic(auto)]
