// An instruction's payload.
#![tactic(auto, using(std::proofs::lemmas::Bool::Decides::nat_tests), unfolding(crate::specs::Instruction::sized_within, crate::specs::Instruction::sized, crate::specs::Instruction::count_in, crate::specs::Instruction::fields_within, crate::specs::Instruction::fields_in, crate::specs::Instruction::instruction_at, crate::specs::Instruction::joined))]

ghost use Rattle.std.specs.Prelude.{◌≡◌, ◌+◌, ◌≤◌, length};
ghost use Rattle.record.specs.Instruction.{fields_within, sized_within, instruction_at};

use ir::Instruction;
use opcode::Fields;

// Whether the payload of len bytes at a byte lies in the bytes, is as long as its operand count asks, and has its zero.
pub fn sized_within(s: &[u8], at: usize, len: usize) -> bool
    ensures { result ≡ sized_within s.now at len }
{
    wire::lies(at, len, s.len())
        && 16 <= len
        && s[at + 6] <= 8
        && len == 16 + 9 * usize::from(s[at + 6])
        && s[at + 7] == 0
}

// The four fields of a payload; zeros where it does not lie in the bytes.
pub fn fields_within(s: &[u8], at: usize) -> Fields
    ensures { result ≡ fields_within s.now at }
{
    if wire::lies(at, 16, s.len()) {
        return Fields {
            code: s[at + 4],
            small: s[at + 5],
            offset: wire::get_i32(s, at + 8),
            number: wire::get_u32(s, at + 12),
        };
    }
    Fields {
        code: 0,
        small: 0,
        offset: 0,
        number: 0,
    }
}

// The payload of len bytes at a byte, in a unit of so many maps.
pub(crate) fn instruction_at(s: &[u8], at: usize, len: usize, maps: u16) -> Option<Instruction>
    requires { at + len ≤ length s.now }
    ensures { result ≡ instruction_at s.now at len maps }
{
    if !sized_within(s, at, len) {
        return None;
    }
    let opcode = opcode::opcode_of(fields_within(s, at), maps)?;
    let operands = operand::operands_at(s, at + 16, s[at + 6])?;
    Some(Instruction {
        result: wire::get_u32(s, at),
        opcode,
        operands,
    })
}
