// What a policy as text means: its words, its lines, and that its text says exactly what its bytes say. There is no code here: see specs/.
#![tactic(auto)]
