// An instruction's operands in the words of LLVM's disassembler.
use insn::form::Size;
use ir::BinaryOp;
use std::fmt;

// A number in hexadecimal after its sign, for which each place of LLVM's text has its own two words.
#[derive(Clone, Copy)]
pub(crate) struct Signed {
    number: i64,
    plus: &'static str,
    minus: &'static str,
}

impl Signed {
    pub(crate) fn constant(number: i64) -> Self {
        Self::new(number, "", "-")
    }

    // How far a jump goes.
    pub(crate) fn distance(off: i16) -> Self {
        Self::new(i64::from(off), "+", "-")
    }

    fn new(number: i64, plus: &'static str, minus: &'static str) -> Self {
        Signed {
            number,
            plus,
            minus,
        }
    }
}

impl fmt::Display for Signed {
    fn fmt<W: fmt::Write>(&self, f: &mut fmt::Formatter<W>) -> fmt::Result {
        let sign = if self.number < 0 {
            self.minus
        } else {
            self.plus
        };
        write!(f, "{sign}{:#x}", self.number.unsigned_abs())
    }
}

// Where a load reads and a store writes.
#[derive(Clone, Copy)]
pub(crate) struct Memory {
    size: Size,
    base: u8,
    off: Signed,
}

impl Memory {
    pub(crate) fn new(size: Size, base: u8, off: i16) -> Self {
        let off = Signed::new(i64::from(off), " + ", " - ");
        Memory { size, base, off }
    }
}

impl fmt::Display for Memory {
    fn fmt<W: fmt::Write>(&self, f: &mut fmt::Formatter<W>) -> fmt::Result {
        let size = match self.size {
            Size::B => "u8",
            Size::H => "u16",
            Size::W => "u32",
            Size::Dw => "u64",
        };
        write!(f, "*({size} *)(r{}{})", self.base, self.off)
    }
}

pub(crate) fn symbol_of(op: BinaryOp) -> &'static str {
    match op {
        BinaryOp::Add => "+=",
        BinaryOp::Sub => "-=",
        BinaryOp::Mul => "*=",
        BinaryOp::Div => "/=",
        BinaryOp::Mod => "%=",
        BinaryOp::Shl => "<<=",
        BinaryOp::Shr => ">>=",
    }
}
