// Document 02, P11, "Account for every line": the three counts of an accepted text make the number of its lines; a theorem, and no functions.
#![tactic(auto)]
