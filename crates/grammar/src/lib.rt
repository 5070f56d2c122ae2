// RFC 4180's grammar and document 01's rules for order lists, and the reader that they define. No routine.
#![tactic(auto)]
