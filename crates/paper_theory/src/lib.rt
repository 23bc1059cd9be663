// Theory alone: what follows from the definitions of document 01 stands in specs/.
#![tactic(auto)]
