// Document 02, P9: what the line of a record means. No functions.
#![tactic(auto)]
