// Laws about what is right that nothing else stands on: what they say in specs/, their proofs in proofs/. There is no
// code.
#![tactic(auto)]
