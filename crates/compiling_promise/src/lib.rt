// What is promised of compiling, and document 01's cases computed. Definitions and theorems, no code.
#![tactic(auto)]
