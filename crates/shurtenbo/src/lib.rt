// The C interface: the entry points again, under C's calling convention. A slice is lent as a pointer and a length, an array as a pointer.
// Every call leaves three numbers in the array `answer`, which the caller lends for it alone: 0 and what the call tells, or a refusal's
// number, place and value. `shurtenbo_c` exports each of them for C, in a static library.
#![tactic(auto)]

mod answer;
pub mod code;
pub mod insns;
pub mod records;
pub mod units;
