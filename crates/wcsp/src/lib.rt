// The theory that every other crate rests on: definitions in specs/, theorems in proofs/. It has no code of its own.
#![tactic(auto)]
