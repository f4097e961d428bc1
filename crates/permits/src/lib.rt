// The permit that a lock is written as: its text, the policy that it says, and what that means. Definitions and theorems, no code.
#![tactic(auto)]
