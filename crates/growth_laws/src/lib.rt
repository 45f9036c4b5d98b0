// The laws of growth on accepted weights, in specs/, proved in proofs/. There is no code here.
#![tactic(auto)]
