// A record's bytes, written where the caller has found room for them.
#![tactic(auto, using(std::proofs::lemmas::Grind::common_steps, wire::proofs::Le::unsigned_length, crate::proofs::Length::part_length, crate::proofs::Valid::name_told), unfolding(crate::specs::Bytes::payload_bytes, crate::specs::Written::valid))]

ghost use Rattle.std.specs.Prelude.{◌≡◌, true, [], ◌+◌, ◌≤◌, length, take, drop};
ghost use Rattle.wire.specs.Le.{store};
ghost use Rattle.recordwriter.specs.Bytes.{payload_bytes, record_bytes};
ghost use Rattle.recordwriter.specs.Written.{valid};

use ir::Instruction;
use record::{Head, Record};

fn put_instruction(b: &mut [u8], i: Instruction)
    ensures { b.new ≡ store b.old 4 (payload_bytes [] (Record.Instruction i)) }
{
    let o = i.opcode;
    let list = i.operands;
    payloadwriter::put_instruction(b, 4, i.result, opcode::fields_of(o), list);
}

// No `copy_from_slice`: at a length that is not known the library for C would need C's `memmove` for it.
fn put_name(b: &mut [u8], at: usize, names: &[u8], start: usize, len: usize)
    requires len_in_bounds { start + len ≤ length names.now }
    requires len_in_bounds_2 { at + len ≤ length b.old }
    ensures { b.new ≡ store b.old at (take len (drop start names.now)) }
{
    for k in 0..len {
        b[at + k] = names[start + k];
    }
}

fn put_head(b: &mut [u8], at: usize, h: Head)
    requires { at + 8 ≤ length b.old }
    ensures { b.new ≡ store b.old at (payload_bytes [] (Record.Head h)) }
{
    wire::put_u16(b, at, h.edition);
    wire::put_u16(b, at + 2, h.maps);
    wire::put_u32(b, at + 4, h.blocks);
}

fn put_payload(b: &mut [u8], value: Record, names: &[u8])
    requires value_value { valid 65536 names.now value ≡ true }
    requires value_in_bounds { 4 + length (payload_bytes names.now value) ≤ length b.old }
    ensures { b.new ≡ store b.old 4 (payload_bytes names.now value) }
{
    match value {
        Record::Head(h) => put_head(b, 4, h),
        Record::Map { start, len } => put_name(b, 4, names, start, len),
        Record::Block(id) => wire::put_u32(b, 4, id),
        Record::Instruction(i) => put_instruction(b, i),
        Record::Terminator(t) => payloadwriter::put_terminator(b, 4, t),
    }
}

// The record at the buffer's front; its payload has n bytes.
pub(crate) fn put_record(b: &mut [u8], value: Record, names: &[u8], n: u16)
    requires value_value { valid 65536 names.now value ≡ true }
    requires n_value { n ≡ length (payload_bytes names.now value) }
    requires n_in_bounds { 4 + n ≤ length b.old }
    ensures { b.new ≡ store b.old 0 (record_bytes names.now value) }
{
    wire::put_u16(b, 0, n);
    wire::put_u16(b, 2, record::kind(value));
    put_payload(b, value, names);
}
