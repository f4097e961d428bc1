// Texts that are built from pieces: what tokens they have, and what policies they say. Definitions and laws, no code.
#![tactic(auto)]
