// The one walk through every instruction. There is nothing to run here: specs/ has what an instruction may do, and proofs/ that every one does no more.
#![tactic(auto)]
