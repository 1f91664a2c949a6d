// Demand 3 (01) of every eight fractions: the statement, in whole numbers, and its laws. No function stands here; they rest on ratio's definitions and laws.
#![tactic(auto)]
