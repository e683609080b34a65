// The worked cases of document 01, from the definitions of the crates below: see specs/Cases.antt. Nothing to run.
#![tactic(auto)]
