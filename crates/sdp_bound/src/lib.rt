// No functions: what the written form of an accepted text has at most, as a law over the definitions of reading and writing.
#![tactic(auto)]
