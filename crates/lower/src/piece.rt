// "Load", "Addr", "Keep": words and pieces of at most two instructions, which may be refused.
ghost use Rattle.std.specs.Prelude.{◌<◌, [], ◌∷◌, ◌≡◌, pos};
ghost use Rattle.wire.specs.Pick.{pick};
ghost use Rattle.wire.specs.Range.{fits16};
ghost use Rattle.frame.specs.Lent.{frame_in};
ghost use Rattle.insn.specs.Rfc.{LDX, STX};
ghost use Rattle.insn.specs.Form.{mem_code};
ghost use Rattle.insn.specs.Layout.{insn_of};
ghost use Rattle.lower.specs.Op.{plain, becomes, refused, ◌▸◌};
ghost use Rattle.lower.specs.Operand.{constant, move, add, call, load, next, keep};
ghost use Rattle.lower.specs.Instruction.{sized, mem};
ghost use Rattle.lower.specs.Step.{step_of, word_is, ops_of, piece_of, one, with_constant, addr_put, addr_take, null_test, null_zero, null_rest};

use crate::Reason;
use frame::Frame;
use insn::{
    BPF_CALL, BPF_EXIT, BPF_JA, BPF_JEQ_IMM, BPF_MOV64_IMM, BPF_MOV64_REG, Insn, R0, R1, R2, R3,
    R4, R6, R10,
};
use ir::Operand;
use wire::range::{fits16, fits32};

// None to two instructions, each as its word.
#[derive(Clone, Copy)]
pub enum Piece {
    Nothing,
    One(u64),
    Two(u64, u64),
}

// An instruction's word, from which it can be told again: of the instruction, and of its fields.
fn word_of(i: Insn) -> u64
    requires dst_bound { i.dst < 16 }
    requires src_bound { i.src < 16 }
    ensures { insn_of result ≡ i }
{
    insn::word(i)
}

pub(crate) fn word(code: u8, dst: u8, src: u8, off: i16, imm: i32) -> u64
    requires dst_bound { dst < 16 }
    requires src_bound { src < 16 }
    ensures { insn_of result ≡ record { code = code; dst = dst; src = src; off = off; imm = imm } }
{
    word_of(Insn {
        code,
        dst,
        src,
        off,
        imm,
    })
}

// A word as a piece.
#[tactic(auto, unfolding(crate::specs::Step::word_is, crate::specs::Step::words, crate::specs::Step::ops_in, crate::specs::Step::piece_of, crate::specs::Step::ops_of))]
fn single(w: Result<u64, Reason>) -> Result<Piece, Reason>
    ensures { piece_of result ≡ word_is w }
{
    Ok(Piece::One(w?))
}

pub(crate) fn plain(code: u8, dst: u8, src: u8, off: i16, imm: i32) -> Piece
    requires dst_bound { dst < 16 }
    requires src_bound { src < 16 }
    ensures { becomes (ops_of result) ≡ one code dst src off imm }
{
    Piece::One(word(code, dst, src, off, imm))
}

// ---- constants

// An instruction with a constant, which imm must hold.
fn with_constant(code: u8, r: u8, z: i64) -> Result<Insn, Reason>
    ensures { step_of result ≡ with_constant code r z }
{
    if fits32(z) {
        return Ok(Insn {
            code,
            dst: r,
            src: 0,
            off: 0,
            imm: z as i32,
        });
    }
    Err(Reason::Immediate(z))
}

pub(crate) fn constant_word(code: u8, r: u8, z: i64) -> Result<u64, Reason>
    requires { r < 16 }
    ensures { word_is result ≡ with_constant code r z }
{
    if fits32(z) {
        return Ok(word(code, r, 0, 0, z as i32));
    }
    Err(Reason::Immediate(z))
}

// MOV64 of a constant.
pub(crate) fn constant(r: u8, z: i64) -> Result<Piece, Reason>
    requires { r < 16 }
    ensures { piece_of result ≡ constant r z }
{
    single(constant_word(BPF_MOV64_IMM, r, z))
}

// ---- cells

// A variable's cell, or an immediate, loaded into a register.
pub fn load_step(frame: Frame<'_>, r: u8, o: Operand) -> Result<Insn, Reason>
    ensures { step_of result ≡ load (frame_in frame.entry) r o }
{
    match o {
        Operand::Immediate(z) => with_constant(BPF_MOV64_IMM, r, z),
        Operand::Var(v) => match frame.cell(v) {
            Some(offset) => Ok(Insn {
                code: 0x79,
                dst: r,
                src: R10,
                off: offset,
                imm: 0,
            }),
            None => Err(Reason::NoCell(v)),
        },
    }
}

pub(crate) fn load_word(frame: Frame<'_>, r: u8, o: Operand) -> Result<u64, Reason>
    requires { r < 16 }
    ensures { word_is result ≡ load (frame_in frame.entry) r o }
{
    match o {
        Operand::Immediate(z) => constant_word(BPF_MOV64_IMM, r, z),
        Operand::Var(v) => match frame.cell(v) {
            Some(offset) => Ok(word(0x79, r, R10, offset, 0)),
            None => Err(Reason::NoCell(v)),
        },
    }
}

pub(crate) fn load(frame: Frame<'_>, r: u8, o: Operand) -> Result<Piece, Reason>
    requires { r < 16 }
    ensures { piece_of result ≡ load (frame_in frame.entry) r o }
{
    single(load_word(frame, r, o))
}

// R0 stored to a variable's cell.
pub fn keep_word(frame: Frame<'_>, v: u32) -> Result<u64, Reason>
    ensures { word_is result ≡ keep (frame_in frame.entry) v }
{
    match frame.cell(v) {
        Some(offset) => Ok(word(0x7b, R10, R0, offset, 0)),
        None => Err(Reason::NoCell(v)),
    }
}

pub fn keep(frame: Frame<'_>, v: u32) -> Result<Piece, Reason>
    ensures { piece_of result ≡ keep (frame_in frame.entry) v }
{
    single(keep_word(frame, v))
}

// MOV of R10 to a register, and ADD of a cell to a register.
fn from_frame(r: u8) -> u64
    requires { r < 16 }
    ensures { becomes (plain (insn_of result) ∷ []) ≡ move r 10 }
{
    word(BPF_MOV64_REG, r, R10, 0, 0)
}

#[tactic(auto, unfolding(crate::specs::Operand::add, crate::specs::Op::insn, insn::specs::Form::opcode_of, insn::specs::Rfc::operation_of))]
fn add_cell(r: u8, cell: i16) -> u64
    requires { r < 16 }
    ensures { becomes (plain (insn_of result) ∷ []) ≡ add r cell }
{
    word(0x07, r, 0, 0, cell as i32)
}

// An address in two pieces: an immediate stored to scratch j, and the address of a variable's cell or of scratch j.
pub(crate) fn put_scratch(frame: Frame<'_>, j: u8, r: u8, o: Operand) -> Result<Piece, Reason>
    requires { r < 16 }
    ensures { piece_of result ≡ addr_put (frame_in frame.entry) j r o }
{
    match o {
        Operand::Var(_) => Ok(Piece::Nothing),
        Operand::Immediate(z) => {
            let a = constant_word(BPF_MOV64_IMM, r, z)?;
            let put = word(0x7b, R10, r, frame.scratch(j), 0);
            Ok(Piece::Two(a, put))
        }
    }
}

pub(crate) fn take_addr(frame: Frame<'_>, j: u8, r: u8, o: Operand) -> Result<Piece, Reason>
    requires { r < 16 }
    ensures { piece_of result ≡ addr_take (frame_in frame.entry) j r o }
{
    match o {
        Operand::Var(v) => match frame.cell(v) {
            Some(cell) => Ok(Piece::Two(from_frame(r), add_cell(r, cell))),
            None => Err(Reason::NoCell(v)),
        },
        Operand::Immediate(_) => { Ok(Piece::Two(from_frame(r), add_cell(r, frame.scratch(j)))) }
    }
}

// The ring's position after an operand whose address is taken.
#[tactic(auto, unfolding(crate::specs::Operand::next))]
pub fn next(j: u8, o: Operand) -> u8
    ensures { result ≡ next j o }
{
    match o {
        Operand::Var(_) => j,
        Operand::Immediate(_) => (j % 8 + 1) % 8,
    }
}

// ---- memory

// Bytes of the context, whose address is in R6, loaded into R0.
pub fn load_context(offset: i32, size: u8) -> Result<u64, Reason>
    ensures { word_is result ≡ sized (mem_code LDX size) (Reason.LoadSize size) (λ code. pick (fits16 offset) (mem code 0 6 offset) (refused (Reason.Offset offset))) }
{
    match insn::ldx_mem(size) {
        Some(code) => {
            if fits16(offset as i64) {
                return Ok(word(code, R0, R6, offset as i16, 0));
            }
            Err(Reason::Offset(offset))
        }
        None => Err(Reason::LoadSize(size)),
    }
}

// R2 stored where R1 points.
pub fn store(size: u8) -> Result<u64, Reason>
    ensures { word_is result ≡ sized (mem_code STX size) (Reason.StoreSize size) (λ code. mem code 1 2 (pos 0)) }
{
    match insn::stx_mem(size) {
        Some(code) => Ok(word(code, R1, R2, 0, 0)),
        None => Err(Reason::StoreSize(size)),
    }
}

// The context's address plus an offset, in R3.
pub fn context_address(offset: i32) -> Piece
    ensures { becomes (ops_of result) ≡ (move 3 6 ▸ add 3 offset) }
{
    let from = word(BPF_MOV64_REG, R3, R6, 0, 0);
    let plus = word(0x07, R3, 0, 0, offset);
    Piece::Two(from, plus)
}

// The update of a map, with no flags.
pub fn call_update() -> Piece
    ensures { becomes (ops_of result) ≡ (constant 4 (pos 0) ▸ call 2) }
{
    let flags = word(BPF_MOV64_IMM, R4, 0, 0, 0);
    let update = word(BPF_CALL, 0, 0, 0, 2);
    Piece::Two(flags, update)
}

// ---- checks

fn jump_by(code: u8, distance: i16) -> u64
    ensures { insn_of result ≡ record { code = code; dst = 0; src = 0; off = distance; imm = pos 0 } }
{
    word(code, 0, 0, distance, 0)
}

fn set_r0(value: i32) -> u64
    ensures { insn_of result ≡ record { code = 0xb7; dst = 0; src = 0; off = pos 0; imm = value } }
{
    word(BPF_MOV64_IMM, R0, 0, 0, value)
}

// R0 as a branch condition, or EXIT where R0 is 0: the test, what is done where R0 is 0, and the rest.
pub fn null_test(condition: bool) -> Piece
    ensures { becomes (ops_of result) ≡ null_test condition }
{
    if condition {
        return Piece::Two(jump_by(BPF_JEQ_IMM, 2), set_r0(1));
    }
    Piece::Two(jump_by(BPF_JEQ_IMM, 1), jump_by(BPF_JA, 2))
}

pub fn null_zero(condition: bool) -> Piece
    ensures { becomes (ops_of result) ≡ null_zero condition }
{
    if condition {
        return Piece::Two(jump_by(BPF_JA, 1), set_r0(0));
    }
    Piece::Two(set_r0(0), jump_by(BPF_EXIT, 0))
}

pub fn null_rest(condition: bool) -> Piece
    ensures { becomes (ops_of result) ≡ null_rest condition }
{
    if condition {
        return Piece::Nothing;
    }
    Piece::One(set_r0(1))
}
