// The rules from a list of codes to its ribbon, the layout that they define, and demands 2 and 3 proved of it. No routine.
#![tactic(auto)]
