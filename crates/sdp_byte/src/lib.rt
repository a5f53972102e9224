// Document 02, P2, "Show me the byte": what the place of refusal 8 means in a text; laws over the definitions, and no functions.
#![tactic(auto)]
