// No functions: what the letter order says of a written text, as a law over the definitions of writing and of the order.
#![tactic(auto)]
