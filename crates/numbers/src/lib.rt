// By which numbers each call and each program refuses. No routine.
#![tactic(auto)]
