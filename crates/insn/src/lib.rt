// One eBPF instruction: its fields, its 8 bytes, its opcodes.
#![tactic(auto)]

pub mod form;
pub mod helper;

ghost use Rattle.std.specs.Prelude.{◌≡◌, ◌<◌};
ghost use Rattle.wire.specs.Le.{store};
ghost use Rattle.insn.specs.Layout.{bytes_of, insn_at, word_of, decoded, encoded_answer, encoded_bytes};
ghost use Rattle.insn.specs.Rfc.{ALU64, LDX, STX, K, X, MEM, operation_of, size_field, alu_byte, mem_byte};
ghost use Rattle.insn.specs.Form.{opcode_of, mem_code};

use form::{Form, Size};
use ir::BinaryOp;

#[derive(Clone, Copy)]
pub struct Insn {
    pub code: u8,
    pub dst: u8,
    pub src: u8,
    pub off: i16,
    pub imm: i32,
}

pub const R0: u8 = 0;

pub const R1: u8 = 1;

pub const R2: u8 = 2;

pub const R3: u8 = 3;

pub const R4: u8 = 4;

pub const R6: u8 = 6;

pub const R10: u8 = 10;

pub const BPF_LD_DW_IMM: u8 = 0x18;

pub const BPF_CALL: u8 = 0x85;

pub const BPF_EXIT: u8 = 0x95;

pub const BPF_JA: u8 = 0x05;

pub const BPF_JEQ_IMM: u8 = 0x15;

pub const BPF_JNE_IMM: u8 = 0x55;

pub const BPF_MOV64_IMM: u8 = 0xb7;

pub const BPF_MOV64_REG: u8 = 0xbf;

// ---- 8 bytes and back

impl Insn {
    pub fn to_le_bytes(self) -> [u8; 8]
        ensures { result ≡ bytes_of self }
    {
        word(self).to_le_bytes()
    }
}

// The instruction whose 8 bytes begin at a byte of the code; what lies past the end reads as 0.
pub fn insn_at(b: &[u8], at: usize) -> Insn
    ensures { result ≡ insn_at b.now at }
{
    let part = b.get(at..).unwrap_or(&[]);
    let registers = wire::get_u8(part, 1);
    Insn {
        code: wire::get_u8(part, 0),
        dst: registers % 16,
        src: registers / 16,
        off: wire::get_i16(part, 2),
        imm: wire::get_i32(part, 4),
    }
}

// The instruction's 8 bytes as one number.
#[tactic(auto, using(crate::proofs::Words::word_is_lem))]
pub fn word(i: Insn) -> u64
    ensures { result ≡ word_of i }
{
    let registers = i.dst % 16 + 16 * (i.src % 16);
    let low = i.code as u64 + 256 * (registers as u64);
    let off = i.off.cast_unsigned() as u64;
    let imm = i.imm.cast_unsigned() as u64;
    low + 65536 * off + 4294967296 * imm
}

// The instruction's 8 bytes written from a byte of the code on; nothing where they do not lie whole in it.
#[tactic(auto, using(crate::proofs::Words::word_bytes))]
pub fn put_insn(b: &mut [u8], at: usize, i: Insn)
    ensures { b.new ≡ store b.old at (bytes_of i) }
{
    wire::put_u64(b, at, word(i));
}

// Why 8 bytes and an instruction are not turned into each other: the slice has another length.
#[derive(Clone, Copy)]
pub enum Fault {
    NotEight,
}

#[tactic(auto, unfolding(crate::specs::Layout::decoded))]
pub fn decode(b: &[u8]) -> Result<Insn, Fault>
    ensures { result ≡ decoded b.now }
{
    if b.len() == 8 {
        return Ok(insn_at(b, 0));
    }
    Err(Fault::NotEight)
}

#[tactic(auto, using(crate::proofs::Pieces::stored_whole), unfolding(crate::specs::Layout::encoded_answer, crate::specs::Layout::encoded_bytes))]
pub fn encode(i: Insn, b: &mut [u8]) -> Result<(), Fault>
    ensures value { result ≡ encoded_answer b.old }
    ensures b_after { b.new ≡ encoded_bytes i b.old }
{
    if b.len() == 8 {
        put_insn(b, 0, i);
        return Ok(());
    }
    Err(Fault::NotEight)
}

// ---- opcodes

#[tactic(auto, unfolding(crate::specs::Rfc::operation_of))]
pub fn alu64_imm(op: BinaryOp) -> u8
    ensures { result ≡ alu_byte ALU64 K (operation_of op) }
{
    match op {
        BinaryOp::Add => 0x07,
        BinaryOp::Sub => 0x17,
        BinaryOp::Mul => 0x27,
        BinaryOp::Div => 0x37,
        BinaryOp::Shl => 0x67,
        BinaryOp::Shr => 0x77,
        BinaryOp::Mod => 0x97,
    }
}

pub fn alu64_reg(op: BinaryOp) -> u8
    ensures { result ≡ alu_byte ALU64 X (operation_of op) }
{
    alu64_imm(op) + 0x08
}

// Mode MEM and a size, which with the class are the opcode of a load or store.
const MEM_W: u8 = 0x60;

const MEM_H: u8 = 0x68;

const MEM_B: u8 = 0x70;

const MEM_DW: u8 = 0x78;

#[tactic(auto, unfolding(crate::specs::Form::mem_code, crate::specs::Rfc::width))]
fn mem(class: u8, bytes: u8) -> Option<u8>
    requires { class < 8 }
    ensures { result ≡ mem_code class bytes }
{
    match bytes {
        1 => Some(sized(class, Size::B)),
        2 => Some(sized(class, Size::H)),
        4 => Some(sized(class, Size::W)),
        8 => Some(sized(class, Size::Dw)),
        _ => None,
    }
}

pub fn ldx_mem(bytes: u8) -> Option<u8>
    ensures { result ≡ mem_code LDX bytes }
{
    mem(1, bytes)
}

pub fn stx_mem(bytes: u8) -> Option<u8>
    ensures { result ≡ mem_code STX bytes }
{
    mem(3, bytes)
}

// ---- the opcode of a form

#[tactic(auto, unfolding(crate::specs::Rfc::size_field))]
fn sized(class: u8, size: Size) -> u8
    requires { class < 8 }
    ensures { result ≡ mem_byte class (size_field size) MEM }
{
    match size {
        Size::W => class + MEM_W,
        Size::H => class + MEM_H,
        Size::B => class + MEM_B,
        Size::Dw => class + MEM_DW,
    }
}

#[tactic(auto, unfolding(crate::specs::Form::opcode_of, crate::specs::Rfc::size_field))]
pub fn opcode_of(f: Form) -> u8
    ensures { result ≡ opcode_of f }
{
    match f {
        Form::NoForm => 0,
        Form::WideLoad => BPF_LD_DW_IMM,
        Form::Ldx(s) => sized(1, s),
        Form::Stx(s) => sized(3, s),
        Form::AluImm(op) => alu64_imm(op),
        Form::AluReg(op) => alu64_reg(op),
        Form::MovImm => BPF_MOV64_IMM,
        Form::MovReg => BPF_MOV64_REG,
        Form::Ja => BPF_JA,
        Form::JeqImm => BPF_JEQ_IMM,
        Form::JneImm => BPF_JNE_IMM,
        Form::Call => BPF_CALL,
        Form::Exit => BPF_EXIT,
    }
}
