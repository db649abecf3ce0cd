// What a maker claims, by words; definitions only (specs/).
#![tactic(auto)]
