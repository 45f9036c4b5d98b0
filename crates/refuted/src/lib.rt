// Wrong programs, those that the scope names and others, in specs/, each shown in proofs/ to break demand 3. There is no code here.
#![tactic(auto)]
