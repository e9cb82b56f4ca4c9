// The relocations against the code's wide instructions.
ghost use Rattle.std.specs.Prelude.{◌≡◌, ◌≤◌, ◌<◌, eqb};
ghost use Rattle.wire.specs.Number.{bytes_before};
ghost use Rattle.shape.specs.Code.{slots};
ghost use Rattle.shape.specs.Relocations.{relocations};
ghost use Rattle.shape.specs.Pair.{pair_at};

use crate::slot::is_wide;
use wire::number::{ByteOffset, SlotNumber, byte_offset};

// Whether the offset is that of the slot.
fn is_offset(given: ByteOffset, slot: SlotNumber) -> bool
    ensures { result ≡ eqb given.0 (bytes_before slot.0) }
{
    given.0 == byte_offset(slot).0
}

// Whether the pair at k is that of the wide instruction at slot s.
#[tactic(auto, unfolding(crate::specs::Pair::pair_at))]
fn pair_at(relocs: &[u32], k: usize, s: usize) -> Result<(), usize>
    requires { s < 131072 }
    ensures { result ≡ pair_at relocs.now k s }
{
    if relocs.len() <= k {
        return Err(k);
    }
    if is_offset(ByteOffset(relocs[k] as u64), SlotNumber(s as u32)) {
        if relocs.len() - k == 1 {
            return Err(k + 1);
        }
        return Ok(());
    }
    Err(k)
}

#[tactic(auto, unfolding(crate::specs::Code::slots))]
pub(crate) fn compared(code: &[u8], relocs: &[u32]) -> Result<(), usize>
    requires { slots code.now ≤ 131072 }
    ensures { result ≡ relocations code.now relocs.now }
{
    let n = code.len() / 8;
    let mut s = 0;
    let mut k = 0;
    // no `for`: a step is as long as the instruction
    while s < n {
        if is_wide(code, SlotNumber(s as u32)) {
            let pair = pair_at(relocs, k, s);
            let Ok(()) = pair else {
                return pair;
            };
            k += 2;
            s += 2;
        } else {
            s += 1;
        }
    }
    if k < relocs.len() {
        return Err(k);
    }
    Ok(())
}
