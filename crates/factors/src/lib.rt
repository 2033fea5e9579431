// What each listed node's symbol is multiplied by in a data symbol (document 02, §4): definitions and laws, no code.
#![tactic(auto)]
