// Theory alone: that the queue rules of 01 are right stands in proofs/, over the definitions of specs/.
#![tactic(auto)]
