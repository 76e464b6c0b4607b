// Theorems about the definitions of `model` alone: see specs/.
#![tactic(auto)]
