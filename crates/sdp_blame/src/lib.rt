// Document 02, P2, "Show me the byte": which byte of a value its refusal names; laws over the definitions, and no functions.
#![tactic(auto)]
