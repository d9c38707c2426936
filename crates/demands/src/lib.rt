// The customer's demands, stated in specs/ and proved in proofs/; nothing here is run.

#![tactic(auto)]
