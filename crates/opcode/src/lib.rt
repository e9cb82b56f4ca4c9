// An instruction's opcode, from the four fields of its payload, and what a record's writer asks of one.
#![tactic(auto)]

pub mod asks;

ghost use Rattle.std.specs.Prelude.{◌≡◌, get_or};
ghost use Rattle.ir.specs.declared.BinaryOp.TheVariants.{Add};
ghost use Rattle.opcode.specs.Opcode.{operations, small_of, row, fields_of, map_of, opcode_in, map_ok, opcode_of, is_opcode};

use ir::{BinaryOp, Opcode};

#[derive(Clone, Copy)]
pub struct Fields {
    pub code: u8,
    pub small: u8,
    pub offset: i32,
    pub number: u32,
}

// The operations of Binary, by small.
const OPERATIONS: [BinaryOp; 7] = [
    BinaryOp::Add,
    BinaryOp::Sub,
    BinaryOp::Mul,
    BinaryOp::Div,
    BinaryOp::Mod,
    BinaryOp::Shl,
    BinaryOp::Shr,
];

// The operation that Binary's small says.
#[tactic(auto, unfolding(crate::specs::Opcode::operations))]
pub fn operation(small: u8) -> BinaryOp
    ensures { result ≡ get_or operations small Add }
{
    OPERATIONS
        .get(small as usize)
        .copied()
        .unwrap_or(BinaryOp::Add)
}

// Binary's small.
#[tactic(auto, unfolding(crate::specs::Opcode::small_of))]
pub fn small_of(op: BinaryOp) -> u8
    ensures { result ≡ small_of op }
{
    op as u8
}

fn row(code: u8, small: u8, offset: i32, number: u32) -> Fields
    ensures { result ≡ row code small offset number }
{
    Fields {
        code,
        small,
        offset,
        number,
    }
}

// An opcode's number, and its small, offset and number.
#[tactic(auto, unfolding(crate::specs::Opcode::fields_of))]
pub fn fields_of(o: Opcode) -> Fields
    ensures { result ≡ fields_of o }
{
    match o {
        Opcode::HelperCall { id } => row(1, 0, 0, id),
        Opcode::LoadKey => row(2, 0, 0, 0),
        Opcode::Store { size } => row(3, size, 0, 0),
        Opcode::LoadCtx { offset, size } => row(4, size, offset, 0),
        Opcode::LoadPacket { offset, size } => row(5, size, offset, 0),
        Opcode::CopyCtxToMem { offset, size } => row(6, 0, offset, size),
        Opcode::NullCheck => row(7, 0, 0, 0),
        Opcode::Binary { op } => row(8, small_of(op), 0, 0),
        Opcode::CallMap { map } => row(9, 0, 0, map),
        Opcode::UpdateMap { map } => row(10, 0, 0, map),
        Opcode::RingBufReserve { map, size } => row(11, 0, wire::sign32(map), size),
        Opcode::RingBufSubmit { map } => row(12, 0, 0, map),
    }
}

// The map in offset; a negative number is none.
#[tactic(auto, unfolding(crate::specs::Opcode::map_of))]
pub fn map_of(z: i32) -> u32
    ensures { result ≡ map_of z }
{
    u32::try_from(z).unwrap_or(0)
}

// The opcode of fields that are known to be one's. `inline(always)`, here and below: one jump by the code for all three functions.
#[tactic(auto, unfolding(crate::specs::Opcode::opcode_in))]
#[inline(always)]
pub fn opcode_in(f: Fields) -> Opcode
    ensures { result ≡ opcode_in f }
{
    match f.code {
        1 => Opcode::HelperCall { id: f.number },
        2 => Opcode::LoadKey,
        3 => Opcode::Store { size: f.small },
        4 => Opcode::LoadCtx {
            offset: f.offset,
            size: f.small,
        },
        5 => Opcode::LoadPacket {
            offset: f.offset,
            size: f.small,
        },
        6 => Opcode::CopyCtxToMem {
            offset: f.offset,
            size: f.number,
        },
        7 => Opcode::NullCheck,
        8 => Opcode::Binary {
            op: operation(f.small),
        },
        9 => Opcode::CallMap { map: f.number },
        10 => Opcode::UpdateMap { map: f.number },
        11 => Opcode::RingBufReserve {
            map: map_of(f.offset),
            size: f.number,
        },
        12 => Opcode::RingBufSubmit { map: f.number },
        _ => Opcode::LoadKey,
    }
}

// Whether the fields are an opcode's, in a unit of so many maps: it uses them in their bounds, and what it does not use is zero.
#[tactic(auto, using(crate::proofs::Opcodes::small_again, crate::proofs::Opcodes::again), unfolding(crate::specs::Opcode::opcode_of, crate::specs::Opcode::same_fields, crate::specs::Opcode::same_number, crate::specs::Opcode::fields_of, crate::specs::Opcode::opcode_in, crate::specs::Opcode::map_ok, crate::specs::Opcode::is_opcode))]
#[inline(always)]
pub fn opcode_ok(f: Fields, maps: u16) -> bool
    ensures { result ≡ is_opcode (opcode_of f maps) }
{
    let no_small = f.small == 0;
    let no_offset = f.offset == 0;
    let no_number = f.number == 0;
    // The fields that alone may be other than zero.
    let number_only = no_small && no_offset;
    let small_only = no_offset && no_number;
    let maps = u32::from(maps);
    match f.code {
        1 => number_only,
        2 => no_small && small_only,
        3 => small_only,
        4 => no_number,
        5 => no_number,
        6 => no_small,
        7 => no_small && small_only,
        8 => f.small < 7 && small_only,
        9 => number_only && f.number < maps,
        10 => number_only && f.number < maps,
        11 => no_small && 0 <= f.offset && map_of(f.offset) < maps,
        12 => number_only && f.number < maps,
        _ => false,
    }
}

// The opcode in a unit of so many maps.
#[tactic(auto, unfolding(crate::specs::Opcode::opcode_of, crate::specs::Opcode::is_opcode))]
#[inline(always)]
pub fn opcode_of(f: Fields, maps: u16) -> Option<Opcode>
    ensures { result ≡ opcode_of f maps }
{
    if opcode_ok(f, maps) {
        return Some(opcode_in(f));
    }
    None
}

// Whether the opcode's map, if it has one, is one of so many.
#[tactic(auto, unfolding(crate::specs::Opcode::map_ok))]
pub fn map_ok(o: Opcode, maps: u16) -> bool
    ensures { result ≡ map_ok maps o }
{
    match o {
        Opcode::CallMap { map }
        | Opcode::UpdateMap { map }
        | Opcode::RingBufReserve { map, .. }
        | Opcode::RingBufSubmit { map } => map < u32::from(maps),
        _ => true,
    }
}
