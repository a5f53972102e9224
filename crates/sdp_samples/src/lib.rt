// No functions: document 01's samples, as one law over the promises of reading and writing.
#![tactic(auto)]
