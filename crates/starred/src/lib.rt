// The cases of document 01 that are marked *: one table over the definitions of the crate rules, in specs/.
#![tactic(auto)]
