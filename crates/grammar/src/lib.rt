// Nested brackets: definitions alone, in specs/, and laws about them, in proofs/. There is no code.
#![tactic(auto)]
