// Lines of text, put into a lent buffer. A line that does not lie whole in the buffer is not written, and the place after it is then the place it was to have.
// Not by `write!`: nothing it ensures says that a write succeeds, and here a line that has room is written.
#![tactic(auto)]

mod pieces;

ghost use Rattle.std.specs.Prelude.{◌≡◌};
ghost use Rattle.wire.specs.Le.{store};
ghost use Rattle.text.specs.Lines.{after, slot_bytes, counts_line, slot_line, reloc_line, refused_line};

use pieces::{digits, put_decimal, put_hex, put_name, put_word, sign};
use wire::lies;
use wire::number::{ByteOffset, SlotNumber, byte_offset};
use wire::refusal::Refusal;

pub fn put_counts(out: &mut [u8], at: usize, slots: SlotNumber, relocs: u32) -> usize
    ensures value { result ≡ after out.old at (counts_line slots.0 relocs) }
    ensures out_after { out.new ≡ store out.old at (counts_line slots.0 relocs) }
{
    let first = slots.0 as u64;
    let second = relocs as u64;
    if lies(at, 15 + digits(first) + digits(second), out.len()) {
        let mut end = put_word(out, at, b"slots ");
        end = put_decimal(out, end, first);
        end = put_word(out, end, b" relocs ");
        end = put_decimal(out, end, second);
        return put_word(out, end, b"\n");
    }
    at
}

// The slot of that number in the code.
pub fn put_slot(out: &mut [u8], at: usize, slot: SlotNumber, code: &[u8]) -> usize
    ensures value { result ≡ after out.old at (slot_line slot.0 (slot_bytes code.now slot.0)) }
    ensures out_after { out.new ≡ store out.old at (slot_line slot.0 (slot_bytes code.now slot.0)) }
{
    let number = slot.0 as u64;
    if lies(at, 18 + digits(number), out.len()) {
        let mut end = put_decimal(out, at, number);
        end = put_word(out, end, b" ");
        let ByteOffset(place) = byte_offset(slot);
        let bytes = wire::get_u64(code, place as usize).to_le_bytes();
        end = put_hex(out, end, &bytes);
        return put_word(out, end, b"\n");
    }
    at
}

pub fn put_reloc(out: &mut [u8], at: usize, offset: ByteOffset, name: &[u8]) -> usize
    ensures value { result ≡ after out.old at (reloc_line offset.0 name.now) }
    ensures out_after { out.new ≡ store out.old at (reloc_line offset.0 name.now) }
{
    let number = offset.0;
    let room = out.len();
    if lies(at, name.len(), room) && lies(at + name.len(), 8 + digits(number), room) {
        let mut end = put_word(out, at, b"reloc ");
        end = put_decimal(out, end, number);
        end = put_word(out, end, b" ");
        end = put_name(out, end, name);
        return put_word(out, end, b"\n");
    }
    at
}

pub fn put_refused(out: &mut [u8], at: usize, refusal: Refusal) -> usize
    ensures value { result ≡ after out.old at (refused_line refusal) }
    ensures out_after { out.new ≡ store out.old at (refused_line refusal) }
{
    let number = refusal.number as u64;
    let place = refusal.place as u64;
    let sign = sign(refusal.value);
    let size = refusal.value.unsigned_abs();
    let length = 20 + digits(number) + digits(place) + sign.len() + digits(size);
    if lies(at, length, out.len()) {
        let mut end = put_word(out, at, b"refused ");
        end = put_decimal(out, end, number);
        end = put_word(out, end, b" at ");
        end = put_decimal(out, end, place);
        end = put_word(out, end, b" value ");
        end = put_word(out, end, sign);
        end = put_decimal(out, end, size);
        return put_word(out, end, b"\n");
    }
    at
}
