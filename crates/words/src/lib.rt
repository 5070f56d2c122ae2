// Words: rows of bands (strings), with their definitions and laws. No routine.
#![tactic(auto)]
