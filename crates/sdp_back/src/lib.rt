// No functions: reading what was written of a read session gives it back, as a law over the definitions of reading and writing.
#![tactic(auto)]
