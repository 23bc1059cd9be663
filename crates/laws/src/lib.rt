// Theory alone: the laws that the engines' proofs cite stand in specs/ and proofs/.
#![tactic(auto)]
