// The kinds of records, as the bytes say them. They stay numbers: any number may stand there, and an enum would first have to be made of it.
pub const HEAD: u16 = 1;

pub const MAP: u16 = 2;

pub const BLOCK: u16 = 3;

pub const INSTRUCTION: u16 = 4;

pub const TERMINATOR: u16 = 5;
