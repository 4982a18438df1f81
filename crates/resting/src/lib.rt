// Which states come to rest again and again, decided by tables. There is no code here: see specs/.
#![tactic(auto)]
