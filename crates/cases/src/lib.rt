// The small fields P1 to P8 of document 01 as one table: the table in specs/, its proof in proofs/. It has no code of its own.
#![tactic(auto)]
