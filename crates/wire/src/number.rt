// Two ways to count in a program's code, which the types keep apart.
ghost use Rattle.std.specs.Prelude.{◌≡◌};
ghost use Rattle.wire.specs.Number.{bytes_before};

// Bytes from the code's start: what a relocation counts.
#[derive(Drop)]
pub struct ByteOffset(pub u64);

// Slots from the code's start: what a jump counts.
#[derive(Clone, Copy)]
pub struct SlotNumber(pub u32);

// From slots to bytes, for the place of a relocation: the only conversion between the two.
pub fn byte_offset(slot: SlotNumber) -> ByteOffset
    ensures { result.0 ≡ bytes_before slot.0 }
{
    ByteOffset(8 * (slot.0 as u64))
}
