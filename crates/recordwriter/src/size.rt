// Whether a record's value keeps the rules, and how many bytes its payload has.
#![tactic(auto, using(std::proofs::lemmas::Grind::common_steps, std::proofs::lemmas::Bool::Decides::nat_tests, wire::proofs::Le::unsigned_length, payloadwriter::proofs::Lengths::instruction_length, crate::proofs::Length::part_length), unfolding(crate::specs::Size::size_of, crate::specs::Written::valid, crate::specs::Bytes::payload_bytes))]

ghost use Rattle.std.specs.Prelude.{◌≡◌, ◌+◌, leb};
ghost use Rattle.wire.specs.Pick.{both};
ghost use Rattle.recordwriter.specs.Size.{size_of};

use ir::operands;
use opcode::map_ok;
use record::Record;
use record::payload::head_ok;

// Whether len bytes from start on lie in total bytes, and are no more than a name may have.
fn name_ok(start: usize, len: usize, total: usize) -> bool
    ensures { result ≡ both (leb (start + len) total) (leb len 64) }
{
    len <= total && start <= total - len && len <= 64
}

pub(crate) fn size_of(value: Record, names: &[u8], maps: u16) -> Option<u16>
    ensures { result ≡ size_of maps names.now value }
{
    match value {
        Record::Head(h) => {
            if head_ok(h) {
                return Some(8);
            }
            None
        }
        Record::Map { start, len } => {
            if name_ok(start, len, names.len()) {
                return Some(len as u16);
            }
            None
        }
        Record::Block(_) => Some(4),
        Record::Instruction(i) => {
            let o = i.opcode;
            if map_ok(o, maps) {
                let list = i.operands;
                return Some(16 + 9 * (operands::count(list) as u16));
            }
            None
        }
        Record::Terminator(t) => Some(payloadwriter::terminator_size(t)),
    }
}
