// Functions on lists and Booleans that the definitions are written with, in specs/, and their laws, in proofs/. There is no code here.
#![tactic(auto)]
