// Definitions and laws of multipliers; no functions.
#![tactic(auto)]
