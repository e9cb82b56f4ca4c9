// A record's value as numbers, padded with zeros to 24.
#![tactic(auto, unfolding(crate::specs::Fields::tag_of, crate::specs::Fields::value_of, crate::specs::Fields::padded, crate::specs::Fields::terminator_numbers, crate::specs::Fields::instruction_numbers, crate::specs::Fields::record_numbers, crate::specs::Fields::fields_of))]

ghost use Rattle.std.specs.Prelude.{◌≡◌, [], ◌∷◌, ◌+◌, ◌*◌, ◌≤◌, length};
ghost use Rattle.std.proofs.lemmas.List.Edits.{sets};
ghost use Rattle.ir.specs.Operands.{list_of};
ghost use Rattle.opcode.specs.Opcode.{fields_of as opcodeFields};
ghost use Rattle.recordfields.specs.Fields.{tag_of, value_of, operands_numbers, padded, terminator_numbers, instruction_numbers, fields_of};

use ir::operands::Operands;
use ir::{Instruction, Operand, Terminator, operands};
use record::Record;
use wire::bits64;

fn tag(o: Operand) -> u64
    ensures { result ≡ tag_of o }
{
    match o {
        Operand::Var(_) => 0,
        Operand::Immediate(_) => 1,
    }
}

fn value(o: Operand) -> u64
    ensures { result ≡ value_of o }
{
    match o {
        Operand::Var(v) => v as u64,
        Operand::Immediate(z) => bits64(z),
    }
}

// The tags and values, where the caller has found room for them.
#[tactic(auto, using(operand::proofs::OperandBytes::first_counted))]
fn put_operands(fields: &mut [u64], at: usize, list: Operands)
    requires { at + 2 * length (list_of list) ≤ length fields.old }
    ensures { fields.new ≡ sets fields.old at (operands_numbers (list_of list)) }
{
    let mut left = list;
    let mut i = at;
    while let Some(o) = operands::first(left) {
        fields[i] = tag(o);
        fields[i + 1] = value(o);
        left = operands::rest(left);
        i += 2;
    }
}

// Seven numbers and zeros. Seven parameters, and no list: each stands at its call under what it is.
fn padded(a: u64, b: u64, c: u64, d: u64, e: u64, f: u64, g: u64) -> [u64; 24]
    ensures { result ≡ padded (a ∷ b ∷ c ∷ d ∷ e ∷ f ∷ g ∷ []) }
{
    [
        a, b, c, d, e, f, g, 0, 0, 0, 0, 0, 0, 0, 0, 0, 0, 0, 0, 0, 0, 0, 0, 0,
    ]
}

#[tactic(auto, using(ir::proofs::OperandLaws::at_most_eight), unfolding(crate::specs::Fields::padded, crate::specs::Fields::instruction_numbers))]
fn instruction_fields(i: Instruction) -> [u64; 24]
    ensures { result ≡ padded (instruction_numbers i.result (opcodeFields i.opcode) (list_of i.operands)) }
{
    let o = i.opcode;
    let list = i.operands;
    let f = opcode::fields_of(o);
    let count = operands::count(list);
    let mut fields = padded(
        4,
        i.result as u64,
        f.code as u64,
        f.small as u64,
        bits64(f.offset as i64),
        f.number as u64,
        count as u64,
    );
    put_operands(&mut fields, 7, list);
    fields
}

fn terminator_fields(t: Terminator) -> [u64; 24]
    ensures { result ≡ padded (5 ∷ terminator_numbers t) }
{
    match t {
        Terminator::Return(o) => padded(5, 0, tag(o), value(o), 0, 0, 0),
        Terminator::Jump(target) => padded(5, 1, target as u64, 0, 0, 0, 0),
        Terminator::Branch {
            condition,
            true_block,
            false_block,
        } => padded(
            5,
            2,
            tag(condition),
            value(condition),
            true_block as u64,
            false_block as u64,
            0,
        ),
    }
}

pub fn fields_of(value: Record) -> [u64; 24]
    ensures { result ≡ fields_of value }
{
    match value {
        Record::Head(h) => padded(1, h.edition as u64, h.maps as u64, h.blocks as u64, 0, 0, 0),
        Record::Map { start, len } => padded(2, start as u64, len as u64, 0, 0, 0, 0),
        Record::Block(id) => padded(3, id as u64, 0, 0, 0, 0, 0),
        Record::Instruction(i) => instruction_fields(i),
        Record::Terminator(t) => terminator_fields(t),
    }
}
