// What the adding commands of a session's text come to, and its laws: see specs/.
#![tactic(auto)]
