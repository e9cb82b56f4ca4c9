// What stands at a slot of a code: here its number becomes a byte offset.
ghost use Rattle.std.specs.Prelude.{◌≡◌};
ghost use Rattle.shape.specs.Code.{at, wide};
ghost use Rattle.shape.specs.Shape.{target, landing};

use insn::{Insn, insn_at};
use wire::number::{SlotNumber, byte_offset};

#[tactic(auto, unfolding(crate::specs::Code::at))]
pub fn instruction_at(code: &[u8], slot: SlotNumber) -> Insn
    ensures { result ≡ at code.now slot.0 }
{
    insn_at(code, byte_offset(slot).0 as usize)
}

// Whether the first byte is 0x18.
#[tactic(auto, unfolding(crate::specs::Code::wide))]
pub(crate) fn is_wide(code: &[u8], slot: SlotNumber) -> bool
    ensures { result ≡ wide code.now slot.0 }
{
    wire::get_u8(code, byte_offset(slot).0 as usize) == 0x18
}

// The slot that a jump goes to, unless it lies before the first.
pub fn target(slot: SlotNumber, off: i16) -> Option<usize>
    ensures { result ≡ landing (target slot.0 off) }
{
    usize::try_from(slot.0 as i64 + 1 + off as i64).ok()
}
