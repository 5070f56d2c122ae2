// The sheet of a list with names: its text, the claims on it, and what the call that writes it answers. No routine.
#![tactic(auto)]
