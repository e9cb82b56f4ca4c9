// The passes over a unit's blocks that measure and write its code: definitions and laws. No code.
#![tactic(auto)]
