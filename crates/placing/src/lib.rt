// Where the strings, numbers and paths of a text's policies lie in the text, and what they say there. Definitions and theorems, no code.
#![tactic(auto)]
