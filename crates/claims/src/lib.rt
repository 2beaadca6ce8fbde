// What is proved of dockets and of the writer: statements in specs/, their proofs in proofs/, and no code.
#![tactic(auto)]
