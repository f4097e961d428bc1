// How policies are read back from a table that begins with their entries. Definitions and theorems, no code.
#![tactic(auto)]
