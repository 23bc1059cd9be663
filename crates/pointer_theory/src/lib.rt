// Theory alone: the pointer rules of document 01 are right. It stands in proofs/, over the definitions of specs/.
#![tactic(auto)]
