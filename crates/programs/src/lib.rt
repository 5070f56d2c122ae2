// What the three programs write: the claims on it, and ours. No routine.
#![tactic(auto)]
