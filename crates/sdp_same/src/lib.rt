// The area that reading leaves, as writing takes it: laws over the definitions, and no functions.
#![tactic(auto)]
