// A unit's instructions and terminators, as values. A map is a number: the place of its record among the maps.
#![tactic(auto)]

pub mod operands;

use operands::Operands;

#[derive(Clone, Copy)]
pub enum Operand {
    Var(u32),
    Immediate(i64),
}

#[derive(Clone, Copy)]
pub enum BinaryOp {
    Add,
    Sub,
    Mul,
    Div,
    Mod,
    Shl,
    Shr,
}

#[derive(Clone, Copy)]
pub enum Opcode {
    HelperCall { id: u32 },

    // memory
    LoadKey,
    Store { size: u8 },

    // ctx
    LoadCtx { offset: i32, size: u8 },
    LoadPacket { offset: i32, size: u8 },

    CopyCtxToMem { offset: i32, size: u32 },

    // checks
    NullCheck,

    // alu
    Binary { op: BinaryOp },

    // maps
    CallMap { map: u32 },
    UpdateMap { map: u32 },

    RingBufReserve { map: u32, size: u32 },
    RingBufSubmit { map: u32 },
}

#[derive(Clone, Copy)]
pub struct Instruction {
    pub result: u32,
    pub opcode: Opcode,
    pub operands: Operands,
}

#[derive(Clone, Copy)]
pub enum Terminator {
    Return(Operand),
    Jump(u32),
    Branch {
        condition: Operand,
        true_block: u32,
        false_block: u32,
    },
}
