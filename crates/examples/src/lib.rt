// The worked examples of document 01, as theorems of the definitions: specs/Table.antt has the table, proofs/Examples.antt the claim.

#![tactic(auto)]
