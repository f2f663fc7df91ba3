// How far the answers of the methods lie from the exact sum of two products: theorems on whole numbers, in proofs/.
#![tactic(auto)]
