// What each opcode becomes, in 01's order: the count of operands, then word by word or piece by piece; nothing is put before all are decided. The operands stand in a payload from byte 16 on.
// Each is handed the code and a place, the frame, what its opcode says and the payload: no two of these are always the same pair.
ghost use Rattle.std.specs.Prelude.{◌<◌, false, [], ◌∷◌, ◌≡◌, eqb};
ghost use Rattle.wire.specs.Pick.{either};
ghost use Rattle.operand.specs.Operand.{operand_in};
ghost use Rattle.ir.specs.declared.Opcode.TheVariants as C;
ghost use Rattle.ir.specs.declared.Operand.TheVariants as O;
ghost use Rattle.frame.specs.Lent.{frame_in};
ghost use Rattle.lower.specs.Op.{◌▸◌};
ghost use Rattle.lower.specs.Operand.{call, load, keep};
ghost use Rattle.lower.specs.Instruction.{operate, from_context, helper_call, after_first, after_two};
ghost use Rattle.lower.specs.Payload.{result_in, count_in, operands_of, instruction_as};
ghost use Rattle.lower.specs.Step.{words, Puts};

use crate::piece::{
    call_update, constant, constant_word, context_address, keep, keep_word, load, load_context,
    load_word, next, null_rest, null_test, null_zero, plain, put_scratch, store, take_addr, word,
};
use crate::{Emitted, Reason, list};
use frame::Frame;
use insn::{BPF_CALL, BPF_MOV64_IMM, R0, R1, R2, R3};
use ir::{BinaryOp, Operand};
use operand::operand_in;

// ---- what every payload has

// The variable that keeps the result, and how many operands there are.
fn result_in(payload: &[u8]) -> u32
    ensures { result ≡ result_in payload.now }
{
    wire::get_u32(payload, 0)
}

fn count_in(payload: &[u8]) -> u8
    ensures { result ≡ count_in payload.now }
{
    wire::get_u8(payload, 6)
}

// ---- alu

// Binary after the load of its first operand, whose word is a: by the second operand's kind.
fn by_constant(
    code: &mut [u8],
    at: usize,
    frame: Frame<'_>,
    res: u32,
    op: BinaryOp,
    a: u64,
    z: i64,
) -> Result<Emitted, Reason>
    ensures { Puts code.old at (words (a ∷ []) ▸ operate (frame_in frame.entry) op (O.Immediate z) ▸ keep (frame_in frame.entry) res) code.new result }
{
    let b = constant_word(insn::alu64_imm(op), R0, z)?;
    let c = keep_word(frame, res)?;
    Ok(list::words(code, at, [a, b, c]))
}

fn by_variable(
    code: &mut [u8],
    at: usize,
    frame: Frame<'_>,
    res: u32,
    op: BinaryOp,
    a: u64,
    v: u32,
) -> Result<Emitted, Reason>
    ensures { Puts code.old at (words (a ∷ []) ▸ operate (frame_in frame.entry) op (O.Var v) ▸ keep (frame_in frame.entry) res) code.new result }
{
    let b = load_word(frame, R1, Operand::Var(v))?;
    let c = word(insn::alu64_reg(op), R0, R1, 0, 0);
    let d = keep_word(frame, res)?;
    Ok(list::words(code, at, [a, b, c, d]))
}

pub fn binary(
    code: &mut [u8],
    at: usize,
    frame: Frame<'_>,
    op: BinaryOp,
    payload: &[u8],
) -> Result<Emitted, Reason>
    ensures { Puts code.old at (instruction_as (frame_in frame.entry) 0 false (C.Binary op) payload.now) code.new result }
{
    let n = count_in(payload);
    if n != 2 {
        return Err(Reason::Count(n));
    }
    let a = load_word(frame, R0, operand_in(payload, 16))?;
    match operand_in(payload, 25) {
        Operand::Immediate(z) => by_constant(code, at, frame, result_in(payload), op, a, z),
        Operand::Var(v) => by_variable(code, at, frame, result_in(payload), op, a, v),
    }
}

// ---- memory

pub fn load_key(
    code: &mut [u8],
    at: usize,
    frame: Frame<'_>,
    payload: &[u8],
) -> Result<Emitted, Reason>
    ensures { Puts code.old at (instruction_as (frame_in frame.entry) 0 false C.LoadKey payload.now) code.new result }
{
    let n = count_in(payload);
    if n == 0 {
        return Err(Reason::Count(0));
    }
    let a = load_word(frame, R1, operand_in(payload, 16))?;
    let b = word(0x79, R0, R1, 0, 0);
    let c = keep_word(frame, result_in(payload))?;
    Ok(list::words(code, at, [a, b, c]))
}

pub fn store_value(
    code: &mut [u8],
    at: usize,
    frame: Frame<'_>,
    size: u8,
    payload: &[u8],
) -> Result<Emitted, Reason>
    ensures { Puts code.old at (instruction_as (frame_in frame.entry) 0 false (C.Store size) payload.now) code.new result }
{
    let n = count_in(payload);
    if n != 2 {
        return Err(Reason::Count(n));
    }
    let a = load_word(frame, R1, operand_in(payload, 16))?;
    let b = load_word(frame, R2, operand_in(payload, 25))?;
    let c = store(size)?;
    Ok(list::words(code, at, [a, b, c]))
}

pub fn from_context(
    code: &mut [u8],
    at: usize,
    frame: Frame<'_>,
    offset: i32,
    size: u8,
    payload: &[u8],
) -> Result<Emitted, Reason>
    ensures { Puts code.old at (from_context (frame_in frame.entry) (result_in payload.now) offset size) code.new result }
{
    let a = load_context(offset, size)?;
    let b = keep_word(frame, result_in(payload))?;
    Ok(list::words(code, at, [a, b]))
}

pub fn copy_context(
    code: &mut [u8],
    at: usize,
    frame: Frame<'_>,
    offset: i32,
    size: u32,
    payload: &[u8],
) -> Result<Emitted, Reason>
    ensures { Puts code.old at (instruction_as (frame_in frame.entry) 0 false (C.CopyCtxToMem offset size) payload.now) code.new result }
{
    let n = count_in(payload);
    if n == 0 {
        return Err(Reason::Count(0));
    }
    let a = operand_in(payload, 16);
    let pieces = [
        load(frame, R1, a)?,
        constant(R2, size as i64)?,
        context_address(offset),
        plain(BPF_CALL, 0, 0, 0, 113),
        keep(frame, result_in(payload))?,
    ];
    Ok(list::pieces(code, at, None, pieces))
}

// ---- helpers

// The helpers that take no operands, and those that take three.
fn takes_none(id: u32) -> bool
    ensures { result ≡ either (either (eqb id 5) (eqb id 14)) (either (eqb id 15) (eqb id 35)) }
{
    match id {
        5 => true,
        14 => true,
        15 => true,
        35 => true,
        _ => false,
    }
}

fn takes_three(id: u32) -> bool
    ensures { result ≡ either (eqb id 114) (eqb id 115) }
{
    match id {
        114 => true,
        115 => true,
        _ => false,
    }
}

#[tactic(auto, unfolding(crate::specs::Step::words, crate::specs::Step::ops_in, crate::specs::Operand::call, crate::specs::Op::insn, insn::specs::Form::opcode_of))]
fn call_word(id: u32) -> u64
    requires { id < 128 }
    ensures { words (result ∷ []) ≡ call id }
{
    word(BPF_CALL, 0, 0, 0, id as i32)
}

fn call_none(
    code: &mut [u8],
    at: usize,
    frame: Frame<'_>,
    res: u32,
    id: u32,
) -> Result<Emitted, Reason>
    requires { id < 128 }
    ensures { Puts code.old at (call id ▸ keep (frame_in frame.entry) res) code.new result }
{
    let a = call_word(id);
    let b = keep_word(frame, res)?;
    Ok(list::words(code, at, [a, b]))
}

fn call_three(
    code: &mut [u8],
    at: usize,
    frame: Frame<'_>,
    id: u32,
    payload: &[u8],
) -> Result<Emitted, Reason>
    requires { id < 128 }
    ensures { Puts code.old at (load (frame_in frame.entry) 1 (operand_in payload.now 16) ▸ load (frame_in frame.entry) 2 (operand_in payload.now 25) ▸ load (frame_in frame.entry) 3 (operand_in payload.now 34) ▸ call id ▸ keep (frame_in frame.entry) (result_in payload.now)) code.new result }
{
    let a = load_word(frame, R1, operand_in(payload, 16))?;
    let b = load_word(frame, R2, operand_in(payload, 25))?;
    let c = load_word(frame, R3, operand_in(payload, 34))?;
    let d = call_word(id);
    let e = keep_word(frame, result_in(payload))?;
    Ok(list::words(code, at, [a, b, c, d, e]))
}

pub fn helper_call(
    code: &mut [u8],
    at: usize,
    frame: Frame<'_>,
    id: u32,
    payload: &[u8],
) -> Result<Emitted, Reason>
    ensures { Puts code.old at (helper_call (frame_in frame.entry) (result_in payload.now) id (operands_of payload.now)) code.new result }
{
    let n = count_in(payload);
    if takes_none(id) {
        if n != 0 {
            return Err(Reason::Count(n));
        }
        return call_none(code, at, frame, result_in(payload), id);
    }
    if id == 16 {
        return Err(Reason::Helper16);
    }
    if takes_three(id) {
        if n != 3 {
            return Err(Reason::Count(n));
        }
        return call_three(code, at, frame, id, payload);
    }
    Err(Reason::Helper(id))
}

// ---- maps

pub fn call_map(
    code: &mut [u8],
    at: usize,
    frame: Frame<'_>,
    j: u8,
    map: u32,
    payload: &[u8],
) -> Result<Emitted, Reason>
    ensures { Puts code.old at (instruction_as (frame_in frame.entry) j false (C.CallMap map) payload.now) code.new result }
{
    let n = count_in(payload);
    if n == 0 {
        return Err(Reason::Count(0));
    }
    let a = operand_in(payload, 16);
    let pieces = [
        put_scratch(frame, j, R2, a)?,
        take_addr(frame, j, R2, a)?,
        plain(BPF_CALL, 0, 0, 0, 1),
        keep(frame, result_in(payload))?,
    ];
    Ok(list::pieces(code, at, Some(map), pieces))
}

pub fn update_map(
    code: &mut [u8],
    at: usize,
    frame: Frame<'_>,
    j: u8,
    map: u32,
    payload: &[u8],
) -> Result<Emitted, Reason>
    ensures { Puts code.old at (instruction_as (frame_in frame.entry) j false (C.UpdateMap map) payload.now) code.new result }
{
    let n = count_in(payload);
    if n != 2 {
        return Err(Reason::Count(n));
    }
    let a = operand_in(payload, 16);
    let b = operand_in(payload, 25);
    let k = next(j, a);
    let pieces = [
        put_scratch(frame, j, R2, a)?,
        take_addr(frame, j, R2, a)?,
        put_scratch(frame, k, R3, b)?,
        take_addr(frame, k, R3, b)?,
        call_update(),
        keep(frame, result_in(payload))?,
    ];
    Ok(list::pieces(code, at, Some(map), pieces))
}

pub fn reserve(
    code: &mut [u8],
    at: usize,
    frame: Frame<'_>,
    map: u32,
    size: u32,
    payload: &[u8],
) -> Result<Emitted, Reason>
    ensures { Puts code.old at (instruction_as (frame_in frame.entry) 0 false (C.RingBufReserve map size) payload.now) code.new result }
{
    let pieces = [
        constant(R2, size as i64)?,
        plain(BPF_MOV64_IMM, R3, 0, 0, 0),
        plain(BPF_CALL, 0, 0, 0, 131),
        keep(frame, result_in(payload))?,
    ];
    Ok(list::pieces(code, at, Some(map), pieces))
}

pub fn submit(
    code: &mut [u8],
    at: usize,
    frame: Frame<'_>,
    payload: &[u8],
) -> Result<Emitted, Reason>
    ensures { Puts code.old at (instruction_as (frame_in frame.entry) 0 false (C.RingBufSubmit 0) payload.now) code.new result }
{
    let n = count_in(payload);
    if n == 0 {
        return Err(Reason::Count(0));
    }
    let a = operand_in(payload, 16);
    let pieces = [
        load(frame, R1, a)?,
        plain(BPF_MOV64_IMM, R2, 0, 0, 0),
        plain(BPF_CALL, 0, 0, 0, 132),
        plain(BPF_MOV64_IMM, R0, 0, 0, 0),
        keep(frame, result_in(payload))?,
    ];
    Ok(list::pieces(code, at, None, pieces))
}

// ---- checks

pub fn null_check(
    code: &mut [u8],
    at: usize,
    frame: Frame<'_>,
    condition: bool,
    payload: &[u8],
) -> Result<Emitted, Reason>
    ensures { Puts code.old at (instruction_as (frame_in frame.entry) 0 condition C.NullCheck payload.now) code.new result }
{
    let n = count_in(payload);
    if n == 0 {
        return Err(Reason::Count(0));
    }
    let a = operand_in(payload, 16);
    let pieces = [
        load(frame, R0, a)?,
        null_test(condition),
        null_zero(condition),
        null_rest(condition),
        keep(frame, result_in(payload))?,
    ];
    Ok(list::pieces(code, at, None, pieces))
}

// ---- the scratch ring

// The ring's position after CallMap, and after UpdateMap.
pub fn after_first(j: u8, payload: &[u8]) -> u8
    ensures { result ≡ after_first j (operands_of payload.now) }
{
    let n = count_in(payload);
    if n == 0 {
        return j;
    }
    next(j, operand_in(payload, 16))
}

pub fn after_two(j: u8, payload: &[u8]) -> u8
    ensures { result ≡ after_two j (operands_of payload.now) }
{
    let n = count_in(payload);
    let k = after_first(j, payload);
    if n < 2 {
        return k;
    }
    next(k, operand_in(payload, 25))
}
