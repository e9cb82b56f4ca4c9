// Parts of a record of a unit that is known to be good, taken straight from its bytes.
#![tactic(auto)]

pub mod terminator;
