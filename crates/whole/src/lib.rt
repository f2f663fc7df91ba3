// Whole numbers, for proofs alone: laws of ℤ, powers, distances and quotients, all in proofs/.
#![tactic(auto)]
