// Document 02, P3, "When will it start?": the definition of the list of starts, its laws and its theorems; no functions.
#![tactic(auto)]
