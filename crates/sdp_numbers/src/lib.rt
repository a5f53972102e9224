// The numbers that document 01 gives to refusals, fields and tables, and the limits of the tables: definitions by name, and no functions.
#![tactic(auto)]
