// Reading lists of tokens: relations that say what a list begins with, and readers that find it. Definitions and laws, no code.
#![tactic(auto)]
