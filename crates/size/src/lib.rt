// What an instruction takes, from the bytes of its payload: its slots and its map, or why it is refused. Its code is not made.
#![tactic(auto)]

mod part;

ghost use Rattle.std.specs.Prelude.{false, ◌≡◌, get_or};
ghost use Rattle.std.specs.Int.{w32};
ghost use Rattle.wire.specs.Le.{byte_at, unsigned_at, signed_at};
ghost use Rattle.ir.specs.declared.BinaryOp.TheVariants.{Add};
ghost use Rattle.ir.specs.declared.Opcode.TheVariants as C;
ghost use Rattle.opcode.specs.Opcode.{operations, map_of};
ghost use Rattle.size.specs.Part.{of_first, of_none, of_three};
ghost use Rattle.size.specs.Size.{size_in, size_by};

use lower::{Emitted, Reason};

// Where a payload has its code, small, operand count, offset, number and first three operands.
const CODE: usize = 4;

const SMALL: usize = 5;

const COUNT: usize = 6;

const OFFSET: usize = 8;

const NUMBER: usize = 12;

const FIRST: usize = 16;

const SECOND: usize = 25;

const THIRD: usize = 34;

// An instruction that needs its first operand and takes so many slots.
fn first(payload: &[u8], slots: u32) -> Result<Emitted, Reason>
    ensures { result ≡ of_first payload.now slots }
{
    if wire::get_u8(payload, COUNT) == 0 {
        return Err(Reason::Count(0));
    }
    let a = operand::operand_in(payload, FIRST);
    part::judge(a)?;
    Ok(Emitted { map: None, slots })
}

// ---- alu

fn binary(payload: &[u8]) -> Result<Emitted, Reason>
    ensures { result ≡ size_by false (C.Binary (get_or operations (byte_at payload.now 5) Add)) payload.now }
{
    let n = wire::get_u8(payload, COUNT);
    if n != 2 {
        return Err(Reason::Count(n));
    }
    let a = operand::operand_in(payload, FIRST);
    let b = operand::operand_in(payload, SECOND);
    part::judge(a)?;
    part::judge(b)?;
    let slots = 2 + part::operate_slots(b);
    Ok(Emitted { map: None, slots })
}

// ---- memory

// The size is checked after the operands.
fn store(payload: &[u8]) -> Result<Emitted, Reason>
    ensures { result ≡ size_by false (C.Store (byte_at payload.now 5)) payload.now }
{
    let n = wire::get_u8(payload, COUNT);
    if n != 2 {
        return Err(Reason::Count(n));
    }
    let place = operand::operand_in(payload, FIRST);
    let value = operand::operand_in(payload, SECOND);
    part::judge(place)?;
    part::judge(value)?;
    let size = wire::get_u8(payload, SMALL);
    match insn::stx_mem(size) {
        Some(_) => Ok(Emitted {
            map: None,
            slots: 3,
        }),
        None => Err(Reason::StoreSize(size)),
    }
}

// LoadCtx and LoadPacket: the size is checked before the offset.
fn from_context(payload: &[u8]) -> Result<Emitted, Reason>
    ensures { result ≡ size_by false (C.LoadCtx (signed_at w32 payload.now 8) (byte_at payload.now 5)) payload.now }
{
    let size = wire::get_u8(payload, SMALL);
    match insn::ldx_mem(size) {
        Some(_) => {
            let offset = wire::get_i32(payload, OFFSET);
            if wire::range::fits16(offset as i64) {
                return Ok(Emitted {
                    map: None,
                    slots: 2,
                });
            }
            Err(Reason::Offset(offset))
        }
        None => Err(Reason::LoadSize(size)),
    }
}

fn copy_context(payload: &[u8]) -> Result<Emitted, Reason>
    ensures { result ≡ size_by false (C.CopyCtxToMem (signed_at w32 payload.now 8) (unsigned_at w32 payload.now 12)) payload.now }
{
    if wire::get_u8(payload, COUNT) == 0 {
        return Err(Reason::Count(0));
    }
    let a = operand::operand_in(payload, FIRST);
    part::judge(a)?;
    part::constant(wire::get_u32(payload, NUMBER) as i64)?;
    Ok(Emitted {
        map: None,
        slots: 6,
    })
}

// ---- helpers

// A helper that takes no operands, and one that takes three.
fn no_operands(payload: &[u8]) -> Result<Emitted, Reason>
    ensures { result ≡ of_none payload.now }
{
    let n = wire::get_u8(payload, COUNT);
    if n != 0 {
        return Err(Reason::Count(n));
    }
    Ok(Emitted {
        map: None,
        slots: 2,
    })
}

fn three_operands(payload: &[u8]) -> Result<Emitted, Reason>
    ensures { result ≡ of_three payload.now }
{
    let n = wire::get_u8(payload, COUNT);
    if n != 3 {
        return Err(Reason::Count(n));
    }
    let a = operand::operand_in(payload, FIRST);
    let b = operand::operand_in(payload, SECOND);
    let c = operand::operand_in(payload, THIRD);
    part::judge(a)?;
    part::judge(b)?;
    part::judge(c)?;
    Ok(Emitted {
        map: None,
        slots: 5,
    })
}

fn helper_call(payload: &[u8]) -> Result<Emitted, Reason>
    ensures { result ≡ size_by false (C.HelperCall (unsigned_at w32 payload.now 12)) payload.now }
{
    let id = wire::get_u32(payload, NUMBER);
    match id {
        5 => no_operands(payload),
        14 => no_operands(payload),
        15 => no_operands(payload),
        35 => no_operands(payload),
        16 => Err(Reason::Helper16),
        114 => three_operands(payload),
        115 => three_operands(payload),
        _ => Err(Reason::Helper(id)),
    }
}

// ---- maps

fn call_map(payload: &[u8]) -> Result<Emitted, Reason>
    ensures { result ≡ size_by false (C.CallMap (unsigned_at w32 payload.now 12)) payload.now }
{
    if wire::get_u8(payload, COUNT) == 0 {
        return Err(Reason::Count(0));
    }
    let a = operand::operand_in(payload, FIRST);
    part::judge(a)?;
    let map = Some(wire::get_u32(payload, NUMBER));
    let slots = 4 + part::address_slots(a);
    Ok(Emitted { map, slots })
}

fn update_map(payload: &[u8]) -> Result<Emitted, Reason>
    ensures { result ≡ size_by false (C.UpdateMap (unsigned_at w32 payload.now 12)) payload.now }
{
    let n = wire::get_u8(payload, COUNT);
    if n != 2 {
        return Err(Reason::Count(n));
    }
    let a = operand::operand_in(payload, FIRST);
    let b = operand::operand_in(payload, SECOND);
    part::judge(a)?;
    part::judge(b)?;
    let map = Some(wire::get_u32(payload, NUMBER));
    let slots = 5 + part::address_slots(a) + part::address_slots(b);
    Ok(Emitted { map, slots })
}

fn reserve(payload: &[u8]) -> Result<Emitted, Reason>
    ensures { result ≡ size_by false (C.RingBufReserve (map_of (signed_at w32 payload.now 8)) (unsigned_at w32 payload.now 12)) payload.now }
{
    part::constant(wire::get_u32(payload, NUMBER) as i64)?;
    let map = Some(opcode::map_of(wire::get_i32(payload, OFFSET)));
    Ok(Emitted { map, slots: 6 })
}

// ---- checks

fn null_check(condition: bool, payload: &[u8]) -> Result<Emitted, Reason>
    ensures { result ≡ size_by condition C.NullCheck payload.now }
{
    if condition {
        return first(payload, 6);
    }
    first(payload, 7)
}

// ---- any instruction

// The instruction in a payload; condition: its result is a branch condition of any block.
pub fn size_instruction(condition: bool, payload: &[u8]) -> Result<Emitted, Reason>
    ensures { result ≡ size_in condition payload.now }
{
    match wire::get_u8(payload, CODE) {
        1 => helper_call(payload),
        2 => first(payload, 3),
        3 => store(payload),
        4 => from_context(payload),
        5 => from_context(payload),
        6 => copy_context(payload),
        7 => null_check(condition, payload),
        8 => binary(payload),
        9 => call_map(payload),
        10 => update_map(payload),
        11 => reserve(payload),
        12 => first(payload, 5),
        _ => first(payload, 3),
    }
}
