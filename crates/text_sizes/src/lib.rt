// How long the tables of a text can be: laws alone.
#![tactic(auto)]
