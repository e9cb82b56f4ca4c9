// The helpers that may be called.
ghost use Rattle.std.specs.Prelude.{◌≡◌};
ghost use Rattle.insn.specs.Helper.{helper_of};

// The helper of a call's imm.
#[tactic(auto, unfolding(crate::specs::Helper::helper_of, crate::specs::Helper::helpers, crate::specs::Helper::among))]
pub fn helper_of(imm: i32) -> Option<u8>
    ensures { result ≡ helper_of imm }
{
    match imm {
        1 => Some(2),
        2 => Some(4),
        5 => Some(0),
        14 => Some(0),
        15 => Some(0),
        35 => Some(0),
        113 => Some(3),
        114 => Some(3),
        115 => Some(3),
        131 => Some(3),
        132 => Some(2),
        _ => None,
    }
}
