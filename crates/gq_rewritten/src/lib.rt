//! Definitions of what refactorings make of trees: selections moved into a fragment or out of one, places forgotten.
#![tactic(auto)]
