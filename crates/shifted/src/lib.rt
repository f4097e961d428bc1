// Policies of a text that stands behind another mean what they mean by themselves. Definitions and laws, no code.
#![tactic(auto)]
