// A scene that is written and read back is the same: a theorem over the contracts of the writer and the reader, in
// proofs/. There is no code.
#![tactic(auto)]
