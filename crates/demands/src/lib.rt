// The three demands of document 00 as theorems over the promises of the crates below. There is no code here: specs/ says what a user's run is,
// proofs/ that its answers are those of the whole-file reading.

#![tactic(auto)]
