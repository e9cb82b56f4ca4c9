// The payloads of an instruction and of a terminator, written whole or not at all.
#![tactic(auto)]

ghost use Rattle.std.specs.Prelude.{◌≡◌, ◌+◌, ◌*◌, ◌≤◌, length};
ghost use Rattle.wire.specs.Le.{store};
ghost use Rattle.ir.specs.Operands.{list_of};
ghost use Rattle.payloadwriter.specs.Payloads.{instruction_bytes, terminator_bytes};

use ir::operands::Operands;
use ir::{Terminator, operands};
use opcode::Fields;
use operand::{put_operand, put_operands};
use wire::lies;

// The instruction, where the caller has found room for it.
fn set_instruction(b: &mut [u8], at: usize, res: u32, f: Fields, list: Operands)
    requires { at + (16 + 9 * length (list_of list)) ≤ length b.old }
    ensures { b.new ≡ store b.old at (instruction_bytes res f (list_of list)) }
{
    let count = operands::count(list);
    wire::put_u32(b, at, res);
    wire::put_u8(b, at + 4, f.code);
    wire::put_u8(b, at + 5, f.small);
    wire::put_u8(b, at + 6, count);
    wire::put_u8(b, at + 7, 0);
    wire::put_i32(b, at + 8, f.offset);
    wire::put_u32(b, at + 12, f.number);
    put_operands(b, at + 16, list);
}

#[tactic(auto, using(crate::proofs::Lengths::instruction_length, wire::proofs::Store::store_out))]
pub fn put_instruction(b: &mut [u8], at: usize, res: u32, f: Fields, list: Operands)
    ensures { b.new ≡ store b.old at (instruction_bytes res f (list_of list)) }
{
    if lies(at, 16 + 9 * usize::from(operands::count(list)), b.len()) {
        set_instruction(b, at, res, f, list);
    }
}

// How many bytes a terminator's payload has.
#[tactic(auto, using(crate::proofs::Lengths::return_length, crate::proofs::Lengths::jump_length, crate::proofs::Lengths::branch_length))]
pub fn terminator_size(t: Terminator) -> u16
    ensures { result ≡ length (terminator_bytes t) }
{
    match t {
        Terminator::Return(_) => 10,
        Terminator::Jump(_) => 5,
        Terminator::Branch { .. } => 18,
    }
}

// The terminator, where the caller has found room for it.
fn set_terminator(b: &mut [u8], at: usize, t: Terminator)
    requires { at + length (terminator_bytes t) ≤ length b.old }
    ensures { b.new ≡ store b.old at (terminator_bytes t) }
{
    match t {
        Terminator::Return(o) => {
            wire::put_u8(b, at, 0);
            put_operand(b, at + 1, o);
        }
        Terminator::Jump(target) => {
            wire::put_u8(b, at, 1);
            wire::put_u32(b, at + 1, target);
        }
        Terminator::Branch {
            condition,
            true_block,
            false_block,
        } => {
            wire::put_u8(b, at, 2);
            put_operand(b, at + 1, condition);
            wire::put_u32(b, at + 10, true_block);
            wire::put_u32(b, at + 14, false_block);
        }
    }
}

#[tactic(auto, using(wire::proofs::Store::store_out))]
pub fn put_terminator(b: &mut [u8], at: usize, t: Terminator)
    ensures { b.new ≡ store b.old at (terminator_bytes t) }
{
    if lies(at, usize::from(terminator_size(t)), b.len()) {
        set_terminator(b, at, t);
    }
}
