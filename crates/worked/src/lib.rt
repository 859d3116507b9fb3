// Document 01's hand-worked table.
#![tactic(auto)]
