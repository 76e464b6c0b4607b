// Demands 1 and 2 of the calls `session` and `text_of`: see specs/.
#![tactic(auto)]
