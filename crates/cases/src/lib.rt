// The proved cases about the calls, in specs/, proved in proofs/. There is no code here.
#![tactic(auto)]
