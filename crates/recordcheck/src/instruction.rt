// An instruction's payload.
#![tactic(auto, using(crate::proofs::Checks::ok_joined), unfolding(crate::specs::Checked::is_instruction, record::specs::Instruction::sized_within, record::specs::Instruction::sized, record::specs::Instruction::count_in, record::specs::Instruction::fields_within, record::specs::Instruction::fields_in, record::specs::Instruction::instruction_at))]

ghost use Rattle.std.specs.Prelude.{◌≡◌, ◌+◌, ◌≤◌, length};
ghost use Rattle.record.specs.Instruction.{instruction_at};
ghost use Rattle.recordcheck.specs.Checked.{is_instruction};

use record::instruction;

// Whether the payload of len bytes at a byte is an instruction's, in a unit of so many maps.
pub(crate) fn instruction_ok(s: &[u8], at: usize, len: usize, maps: u16) -> bool
    requires { at + len ≤ length s.now }
    ensures { result ≡ is_instruction (instruction_at s.now at len maps) }
{
    instruction::sized_within(s, at, len)
        && opcode::opcode_ok(instruction::fields_within(s, at), maps)
        && operand::are_operands(s, at + 16, s[at + 6])
}
