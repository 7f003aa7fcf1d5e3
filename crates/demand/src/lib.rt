// Demand 3, whole: from the bytes of a frame, through its header and its table of contents, to what the look-ups answer. The statement in specs/, the
// proof in proofs/, no code.
#![tactic(auto)]
