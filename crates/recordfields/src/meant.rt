// Which record 24 numbers mean. Numbers after those that a record uses are not looked at.
// `inline(always)`: LLVM then sees at each place that makes a record which one it is, and does not carry the parts of every other along with it.
#![tactic(auto, using(std::proofs::lemmas::Bool::Decides::nat_tests), unfolding(crate::specs::Meant::operand_from, crate::specs::Meant::opcode_from, crate::specs::Meant::head_from, crate::specs::Meant::block_from, crate::specs::Meant::instruction_from, crate::specs::Meant::jump_from, crate::specs::Meant::branch_from, crate::specs::Meant::terminator_from, crate::specs::Meant::record_from, record::specs::Terminator::branching, record::specs::Terminator::returning, record::specs::Payload::of_terminator, record::specs::Payload::of_instruction, record::specs::Instruction::joined, wire::specs::Range::fits32))]

ghost use Rattle.std.specs.Prelude.{◌≡◌, ◌≤◌, get_or};
ghost use Rattle.ir.specs.declared.operands.Operands.TheVariants.{Zero};
ghost use Rattle.record.specs.Payload.{of_terminator};
ghost use Rattle.record.specs.Terminator.{returning};
ghost use Rattle.recordfields.specs.Meant.{operand_from, operands_from, opcode_from, head_from, block_from, instruction_from, jump_from, branch_from, terminator_from, record_from};

use ir::operands::Operands;
use ir::{Instruction, Opcode, Operand, Terminator, operands};
use opcode::Fields;
use record::{Head, Record};
use wire::sign64;

fn at(fields: &[u64], i: usize) -> u64
    ensures { result ≡ get_or fields.now i 0 }
{
    fields.get(i).copied().unwrap_or(0)
}

fn operand_from(tag: u64, value: u64) -> Option<Operand>
    ensures { result ≡ operand_from tag value }
{
    match tag {
        0 => { Some(Operand::Var(u32::try_from(value).ok()?)) }
        1 => Some(Operand::Immediate(sign64(value))),
        _ => None,
    }
}

// The k operands of an instruction.
#[inline(always)]
fn operands_from(fields: &[u64], k: u64) -> Option<Operands>
    requires { k ≤ 8 }
    ensures { result ≡ operands_from Zero fields.now 7 k }
{
    let mut list = Operands::Zero;
    let mut i = 7;
    for _ in 0..k {
        let o = operand_from(at(fields, i), at(fields, i + 1))?;
        list = operands::push(list, o);
        i += 2;
    }
    Some(list)
}

fn opcode_from(code: u64, small: u64, offset: u64, number: u64, maps: u16) -> Option<Opcode>
    ensures { result ≡ opcode_from maps code small offset number }
{
    let code = u8::try_from(code).ok()?;
    let small = u8::try_from(small).ok()?;
    let offset = i32::try_from(sign64(offset)).ok()?;
    let number = u32::try_from(number).ok()?;
    opcode::opcode_of(
        Fields {
            code,
            small,
            offset,
            number,
        },
        maps,
    )
}

#[inline(always)]
fn head_from(edition: u64, maps: u64, blocks: u64) -> Option<Record>
    ensures { result ≡ head_from edition maps blocks }
{
    let edition = u16::try_from(edition).ok()?;
    let maps = u16::try_from(maps).ok()?;
    let blocks = u32::try_from(blocks).ok()?;
    Some(Record::Head(Head {
        edition,
        maps,
        blocks,
    }))
}

#[inline(always)]
fn instruction_from(fields: &[u64], maps: u16) -> Option<Record>
    ensures { result ≡ instruction_from maps fields.now }
{
    let result = u32::try_from(at(fields, 1)).ok()?;
    let count = at(fields, 6);
    if 8 < count {
        return None;
    }
    let code = at(fields, 2);
    let small = at(fields, 3);
    let offset = at(fields, 4);
    let number = at(fields, 5);
    let opcode = opcode_from(code, small, offset, number, maps)?;
    let operands = operands_from(fields, count)?;
    Some(Record::Instruction(Instruction {
        result,
        opcode,
        operands,
    }))
}

#[inline(always)]
fn jump_from(target: u64) -> Option<Record>
    ensures { result ≡ jump_from target }
{
    let target = u32::try_from(target).ok()?;
    Some(Record::Terminator(Terminator::Jump(target)))
}

#[inline(always)]
fn return_from(o: Option<Operand>) -> Option<Record>
    ensures { result ≡ of_terminator (returning o) }
{
    Some(Record::Terminator(Terminator::Return(o?)))
}

#[inline(always)]
fn branch_from(o: Option<Operand>, to: u64, other: u64) -> Option<Record>
    ensures { result ≡ branch_from o to other }
{
    let true_block = u32::try_from(to).ok()?;
    let false_block = u32::try_from(other).ok()?;
    Some(Record::Terminator(Terminator::Branch {
        condition: o?,
        true_block,
        false_block,
    }))
}

#[inline(always)]
fn terminator_from(fields: &[u64]) -> Option<Record>
    ensures { result ≡ terminator_from fields.now }
{
    let form = at(fields, 1);
    let second = at(fields, 2);
    let third = at(fields, 3);
    match form {
        0 => return_from(operand_from(second, third)),
        1 => jump_from(second),
        2 => branch_from(operand_from(second, third), at(fields, 4), at(fields, 5)),
        _ => None,
    }
}

#[inline(always)]
fn block_from(id: u64) -> Option<Record>
    ensures { result ≡ block_from id }
{
    let id = u32::try_from(id).ok()?;
    Some(Record::Block(id))
}

// The record that the numbers mean in a unit of so many maps, if they mean one.
#[inline(always)]
pub fn record_from(fields: &[u64], maps: u16) -> Option<Record>
    ensures { result ≡ record_from maps fields.now }
{
    match at(fields, 0) {
        1 => head_from(at(fields, 1), at(fields, 2), at(fields, 3)),
        2 => Some(Record::Map {
            start: at(fields, 1) as usize,
            len: at(fields, 2) as usize,
        }),
        3 => block_from(at(fields, 1)),
        4 => instruction_from(fields, maps),
        5 => terminator_from(fields),
        _ => None,
    }
}
