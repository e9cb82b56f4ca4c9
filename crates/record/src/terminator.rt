// A terminator's payload.
#![tactic(auto, using(std::proofs::lemmas::Bool::Decides::nat_tests), unfolding(crate::specs::Terminator::terminator_at, crate::specs::Terminator::returning, crate::specs::Terminator::branching))]

ghost use Rattle.std.specs.Prelude.{◌≡◌, ◌+◌, ◌≤◌, length};
ghost use Rattle.record.specs.Terminator.{terminator_at};

use ir::Terminator;

// The payload of len bytes at a byte.
pub(crate) fn terminator_at(s: &[u8], at: usize, len: usize) -> Option<Terminator>
    requires { at + len ≤ length s.now }
    ensures { result ≡ terminator_at s.now at len }
{
    if len == 10 && s[at] == 0 {
        return Some(Terminator::Return(operand::operand_at(s, at + 1)?));
    }
    if len == 5 && s[at] == 1 {
        return Some(Terminator::Jump(wire::get_u32(s, at + 1)));
    }
    if len == 18 && s[at] == 2 {
        return Some(Terminator::Branch {
            condition: operand::operand_at(s, at + 1)?,
            true_block: wire::get_u32(s, at + 10),
            false_block: wire::get_u32(s, at + 14),
        });
    }
    None
}
