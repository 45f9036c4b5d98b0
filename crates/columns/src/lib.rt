// Tables by their columns: definitions, and laws of them.
#![tactic(auto)]
