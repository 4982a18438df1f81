// What a buyer reads: the demands, the marked cases, the worthless versions refuted. There is no code here: see specs/.
#![tactic(auto)]
