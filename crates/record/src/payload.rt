// A payload of each kind.
#![tactic(auto, using(std::proofs::lemmas::Bool::Decides::nat_tests), unfolding(crate::specs::Payload::head_in, crate::specs::Payload::head_ok, crate::specs::Payload::payload_at, crate::specs::Payload::of_instruction, crate::specs::Payload::of_terminator))]

ghost use Rattle.std.specs.Prelude.{◌≡◌, ◌+◌, ◌≤◌, length};
ghost use Rattle.record.specs.Payload.{head_in, head_ok, payload_at};

use crate::{Head, Record, instruction, kinds, terminator};

// Edition 1, 0 to 64 maps, 0 to 1,024 blocks.
pub fn head_ok(h: Head) -> bool
    ensures { result ≡ head_ok h }
{
    h.edition == 1 && h.maps <= 64 && h.blocks <= 1024
}

// A head's numbers.
fn head_in(s: &[u8], at: usize) -> Head
    requires { at + 8 ≤ length s.now }
    ensures { result ≡ head_in s.now at }
{
    Head {
        edition: wire::get_u16(s, at),
        maps: wire::get_u16(s, at + 2),
        blocks: wire::get_u32(s, at + 4),
    }
}

// The payload of len bytes at a byte, in a unit of so many maps.
pub(crate) fn payload_at(s: &[u8], kind: u16, at: usize, len: usize, maps: u16) -> Option<Record>
    requires { at + len ≤ length s.now }
    ensures { result ≡ payload_at kind s.now at len maps }
{
    match kind {
        kinds::HEAD => {
            if len == 8 {
                let head = head_in(s, at);
                if head_ok(head) {
                    // Its numbers one by one: copied whole, they would be one word across two fields of the other records, and these would go through memory.
                    let Head {
                        edition,
                        maps,
                        blocks,
                    } = head;
                    return Some(Record::Head(Head {
                        edition,
                        maps,
                        blocks,
                    }));
                }
            }
            None
        }
        kinds::MAP => {
            if len <= 64 {
                return Some(Record::Map {
                    start: at,
                    len: len,
                });
            }
            None
        }
        kinds::BLOCK => {
            if len == 4 {
                return Some(Record::Block(wire::get_u32(s, at)));
            }
            None
        }
        kinds::INSTRUCTION => {
            Some(Record::Instruction(instruction::instruction_at(s, at, len, maps)?))
        }
        kinds::TERMINATOR => { Some(Record::Terminator(terminator::terminator_at(s, at, len)?)) }
        _ => None,
    }
}
