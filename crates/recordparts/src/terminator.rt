// The terminator in a payload that is known to be one's.
#![tactic(auto, using(std::proofs::lemmas::Bool::Decides::nat_tests, wire::proofs::Le::unsigned_out, crate::proofs::Parts::terminator_out), unfolding(crate::specs::Terminator::terminator_in))]

ghost use Rattle.std.specs.Prelude.{◌≡◌, ◌+◌};
ghost use Rattle.std.specs.Int.{w32};
ghost use Rattle.wire.specs.Le.{unsigned_at};
ghost use Rattle.recordparts.specs.Terminator.{terminator_in};

use ir::{Operand, Terminator};

// The number that stands so many bytes after a byte.
fn number_after(s: &[u8], at: usize, bytes: usize) -> u32
    ensures { result ≡ unsigned_at w32 s.now (at + bytes) }
{
    match at.checked_add(bytes) {
        Some(i) => wire::get_u32(s, i),
        None => 0,
    }
}

pub fn terminator_in(s: &[u8], at: usize) -> Terminator
    ensures { result ≡ terminator_in s.now at }
{
    if s.len() <= at {
        return Terminator::Return(Operand::Var(0));
    }
    match s[at] {
        0 => Terminator::Return(operand::operand_in(s, at + 1)),
        1 => Terminator::Jump(wire::get_u32(s, at + 1)),
        _ => Terminator::Branch {
            condition: operand::operand_in(s, at + 1),
            true_block: number_after(s, at, 10),
            false_block: number_after(s, at, 14),
        },
    }
}
