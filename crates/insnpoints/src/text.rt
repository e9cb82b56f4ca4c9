// An instruction in the words of LLVM's disassembler.
use crate::operand::{Memory, Signed, symbol_of};
use insn::Insn;
use insn::form::{Form, form_of};
use std::fmt;

// The bytes into which the form's opcode and the other fields are encoded. A wide load's second slot has no form, and opcode 0.
#[derive(Clone, Copy)]
pub(crate) struct Slot(pub(crate) Insn);

impl fmt::Display for Slot {
    fn fmt<W: fmt::Write>(&self, f: &mut fmt::Formatter<W>) -> fmt::Result {
        let code = insn::opcode_of(form_of(self.0.code));
        let bytes = Insn { code, ..self.0 }.to_le_bytes();
        f.write_str(str::from_utf8(&octets(bytes)).unwrap_or(""))
    }
}

fn digit(n: u8) -> u8 {
    b"0123456789abcdef"[usize::from(n % 16)]
}

// Two digits a byte, blanks between them. All are put at once: each number that is printed by itself costs more than the line's other words.
fn octets(bytes: [u8; 8]) -> [u8; 23] {
    let mut text = [b' '; 23];
    for (two, b) in text.chunks_mut(3).zip(bytes) {
        two[0] = digit(b / 16);
        two[1] = digit(b % 16);
    }
    text
}

// An instruction of one slot. A wide load's first slot is none by itself.
#[derive(Clone, Copy)]
pub(crate) struct OneSlot(pub(crate) Insn);

impl fmt::Display for OneSlot {
    fn fmt<W: fmt::Write>(&self, f: &mut fmt::Formatter<W>) -> fmt::Result {
        let Insn {
            code,
            dst,
            src,
            off,
            imm,
        } = self.0;
        let imm = Signed::constant(i64::from(imm));
        match form_of(code) {
            Form::Ldx(size) => write!(f, "r{dst} = {}", Memory::new(size, src, off)),
            Form::Stx(size) => write!(f, "{} = r{src}", Memory::new(size, dst, off)),
            Form::AluImm(op) => write!(f, "r{dst} {} {imm}", symbol_of(op)),
            Form::AluReg(op) => write!(f, "r{dst} {} r{src}", symbol_of(op)),
            Form::MovImm => write!(f, "r{dst} = {imm}"),
            Form::MovReg => write!(f, "r{dst} = r{src}"),
            Form::Ja => write!(f, "goto {}", Signed::distance(off)),
            Form::JeqImm => write!(f, "if r{dst} == {imm} goto {}", Signed::distance(off)),
            Form::JneImm => write!(f, "if r{dst} != {imm} goto {}", Signed::distance(off)),
            Form::Call => write!(f, "call {imm}"),
            Form::Exit => f.write_str("exit"),
            Form::WideLoad | Form::NoForm => f.write_str("<unknown>"),
        }
    }
}

// A wide load of both its slots. A source other than 0 says what the constant stands for, as 1 does of a map.
#[derive(Clone, Copy)]
pub(crate) struct WideLoad(pub(crate) Insn, pub(crate) Insn);

impl fmt::Display for WideLoad {
    fn fmt<W: fmt::Write>(&self, f: &mut fmt::Formatter<W>) -> fmt::Result {
        let Insn { dst, src, imm, .. } = self.0;
        let wide = Signed::constant(wide_constant(imm, self.1.imm));
        if src == 0 {
            write!(f, "r{dst} = {wide} ll")
        } else {
            write!(f, "ld_pseudo\tr{dst}, {src:#x}, {wide}")
        }
    }
}

// The 64-bit constant of a wide load's two slots.
fn wide_constant(imm: i32, next_imm: i32) -> i64 {
    let low = u64::from(imm.cast_unsigned());
    let high = u64::from(next_imm.cast_unsigned());
    (high << 32 | low).cast_signed()
}
