// What is seen in a tree of buses, as mathematics alone: no function.
#![tactic(auto)]
