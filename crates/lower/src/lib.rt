// What an instruction or a terminator becomes.
#![tactic(auto)]

mod instruction;
mod list;
mod piece;

ghost use Rattle.std.specs.Prelude.{◌≡◌};
ghost use Rattle.frame.specs.Lent.{frame_in};
ghost use Rattle.lower.specs.Put.{put_lowered};
ghost use Rattle.lower.specs.Held.{held, ending_ops};
ghost use Rattle.lower.specs.Payload.{instruction_in, scratch_in};
ghost use Rattle.lower.specs.Step.{Puts};
ghost use Rattle.lower.specs.Terminator.{terminator};

use frame::Frame;
use insn::Insn;
use ir::Terminator;

// Why an instruction is refused.
#[derive(Clone, Copy)]
pub enum Reason {
    Count(u8),
    Immediate(i64),
    Offset(i32),
    LoadSize(u8),
    StoreSize(u8),
    Helper16,
    Helper(u32),
    NoCell(u32),
}

// What an instruction becomes, beside its code: the map whose address its code loads first, and the slots that the code takes.
#[derive(Drop)]
pub struct Emitted {
    pub map: Option<u32>,
    pub slots: u32,
}

// What a terminator becomes: a load of R0 and EXIT; JA; a load of R0, JNE and JA.
#[derive(Drop)]
pub enum Ending {
    Return(Insn),
    Jump(u32),
    Branch(Insn, u32, u32),
}

// By the opcode's code at byte 4.
fn emit(
    code: &mut [u8],
    at: usize,
    frame: Frame<'_>,
    j: u8,
    condition: bool,
    payload: &[u8],
) -> Result<Emitted, Reason>
    ensures { Puts code.old at (instruction_in (frame_in frame.entry) j condition payload.now) code.new result }
{
    match wire::get_u8(payload, 4) {
        1 => {
            let id = wire::get_u32(payload, 12);
            instruction::helper_call(code, at, frame, id, payload)
        }
        3 => {
            let size = wire::get_u8(payload, 5);
            instruction::store_value(code, at, frame, size, payload)
        }
        4 => {
            let offset = wire::get_i32(payload, 8);
            let size = wire::get_u8(payload, 5);
            instruction::from_context(code, at, frame, offset, size, payload)
        }
        5 => {
            let offset = wire::get_i32(payload, 8);
            let size = wire::get_u8(payload, 5);
            instruction::from_context(code, at, frame, offset, size, payload)
        }
        6 => {
            let offset = wire::get_i32(payload, 8);
            let size = wire::get_u32(payload, 12);
            instruction::copy_context(code, at, frame, offset, size, payload)
        }
        7 => instruction::null_check(code, at, frame, condition, payload),
        8 => {
            let op = opcode::operation(wire::get_u8(payload, 5));
            instruction::binary(code, at, frame, op, payload)
        }
        9 => {
            let map = wire::get_u32(payload, 12);
            instruction::call_map(code, at, frame, j, map, payload)
        }
        10 => {
            let map = wire::get_u32(payload, 12);
            instruction::update_map(code, at, frame, j, map, payload)
        }
        11 => {
            let map = opcode::map_of(wire::get_i32(payload, 8));
            let size = wire::get_u32(payload, 12);
            instruction::reserve(code, at, frame, map, size, payload)
        }
        12 => instruction::submit(code, at, frame, payload),
        _ => instruction::load_key(code, at, frame, payload),
    }
}

// The instruction in a payload, in the frame of these variables, from scratch j of the ring on; condition: its result is a branch condition of any block.
// Its code is put from the byte `at` on; nothing of one that is refused.
pub fn lower_instruction(
    code: &mut [u8],
    at: usize,
    frame: Frame<'_>,
    j: u8,
    condition: bool,
    payload: &[u8],
) -> Result<Emitted, Reason>
    ensures value { result ≡ held (instruction_in (frame_in frame.entry) j condition payload.now) }
    ensures code_after { code.new ≡ put_lowered code.old at (instruction_in (frame_in frame.entry) j condition payload.now) }
{
    emit(code, at, frame, j, condition, payload)
}

// The ring's position after the instruction in a payload.
pub fn scratch_after(j: u8, payload: &[u8]) -> u8
    ensures { result ≡ scratch_in j payload.now }
{
    match wire::get_u8(payload, 4) {
        9 => instruction::after_first(j, payload),
        10 => instruction::after_two(j, payload),
        _ => j,
    }
}

pub fn lower_terminator(frame: Frame<'_>, t: Terminator) -> Result<Ending, Reason>
    ensures { ending_ops result ≡ terminator (frame_in frame.entry) t }
{
    match t {
        Terminator::Return(o) => {
            let first = piece::load_step(frame, insn::R0, o)?;
            Ok(Ending::Return(first))
        }
        Terminator::Jump(target) => Ok(Ending::Jump(target)),
        Terminator::Branch {
            condition,
            true_block,
            false_block,
        } => {
            let first = piece::load_step(frame, insn::R0, condition)?;
            Ok(Ending::Branch(first, true_block, false_block))
        }
    }
}
