// The two halves of the card agree: what the terminal answers to a legal command, the verdict judges good, or 8 or 9 by its status. In a log of
// whole messages it is one entry, judged so. No code: the statements are in specs/, over the definitions that the contracts of `terminal`, `verdict` and
// `monitor` cite, and their proofs in proofs/.
#![tactic(auto)]
