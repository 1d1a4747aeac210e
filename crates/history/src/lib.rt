// What holds of the terminal after any past (demand 3). No code: the statements are in specs/Demands.antt, over the definitions that the
// contracts of `terminal` cite, and their proofs in proofs/.
#![tactic(auto)]
