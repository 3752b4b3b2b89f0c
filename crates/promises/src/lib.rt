// The theorems of the machine. There is nothing to run here: specs/ has what is said, each in plain words, and proofs/ why it holds.
#![tactic(auto)]
