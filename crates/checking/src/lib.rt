// Checking a supplied ribbon: which codes have no place on it, and what the call that checks answers. No routine.
#![tactic(auto)]
