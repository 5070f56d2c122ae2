// Joining by document 004 with our tie rule: the rules, the rounds, the one pass, and the greedy half. No routine.
#![tactic(auto)]
