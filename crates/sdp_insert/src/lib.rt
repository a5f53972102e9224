// No functions: what lines put into a text do to the answer, as a law over the definition of reading.
#![tactic(auto)]
