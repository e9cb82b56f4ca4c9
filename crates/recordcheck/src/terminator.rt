// A terminator's payload.
#![tactic(auto, using(crate::proofs::Checks::ok_returning, crate::proofs::Checks::ok_branching, crate::proofs::Checks::ok_jumping), unfolding(crate::specs::Checked::is_terminator, record::specs::Terminator::terminator_at))]

ghost use Rattle.std.specs.Prelude.{◌≡◌, ◌+◌, ◌≤◌, length};
ghost use Rattle.record.specs.Terminator.{terminator_at};
ghost use Rattle.recordcheck.specs.Checked.{is_terminator};

// Whether the payload of len bytes at a byte is a terminator's.
pub(crate) fn terminator_ok(s: &[u8], at: usize, len: usize) -> bool
    requires { at + len ≤ length s.now }
    ensures { result ≡ is_terminator (terminator_at s.now at len) }
{
    match len {
        10 => s[at] == 0 && operand::is_operand(s, at + 1),
        5 => s[at] == 1,
        // A branch.
        18 => s[at] == 2 && operand::is_operand(s, at + 1),
        _ => false,
    }
}
