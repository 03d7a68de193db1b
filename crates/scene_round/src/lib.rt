// A scene written and read back: laws alone, in proofs/. There is no code.
#![tactic(auto)]
