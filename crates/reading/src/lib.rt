// "Reading a whole file" of document 01 as definitions (specs/), and the laws of that reading (proofs/). There is no code here:
// every promise of the crates above is stated in these terms.

#![tactic(auto)]
