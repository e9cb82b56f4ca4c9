// How the operations of a unit's blocks follow each other: definitions and laws. No code.
#![tactic(auto)]
