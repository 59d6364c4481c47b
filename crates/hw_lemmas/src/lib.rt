//! Lemmas on truth values, numbers and lists that the proofs of several crates cite, and two operators and a test of their definitions. There is no code here.
#![tactic(auto)]
