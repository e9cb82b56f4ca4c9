// A record of the unit file, checked with no value made of it: one function for each place that a record can be due at.
#![tactic(auto)]

mod instruction;
mod terminator;

ghost use Rattle.std.specs.Prelude.{◌≡◌, ℕ};
ghost use Rattle.record.specs.Record.{read_record};
ghost use Rattle.record.specs.declared.Due.TheVariants as Du;
ghost use Rattle.recordcheck.specs.Checked.{checked_of, checked_by};

use record::{Fault, kinds};

// By its kind and the bounds of its length.
#[tactic(auto, using(std::proofs::lemmas::Bool::Decides::nat_tests, record::proofs::Frames::ends_inside), unfolding(crate::specs::Checked::checked_by, record::specs::Frame::whole_at, record::specs::Frame::next_at))]
fn check_length(
    s: &[u8],
    at: usize,
    kind: u16,
    least: usize,
    most: usize,
) -> Result<(u16, usize), Fault>
    ensures { result ≡ checked_by s.now at kind least most }
{
    let len = wire::get_u16(s, at) as usize;
    if record::whole(s.len(), at, len) {
        if wire::get_u16(s, at + 2) == kind {
            if least <= len && len <= most {
                return Ok((kind, at + 4 + len));
            }
            return Err(Fault::Broken(at));
        }
        return Err(Fault::NotDue(at));
    }
    Err(Fault::Cut(at))
}

// The answer of `read_record` but for the value, where a map is due. How many maps the unit has is nothing to it.
#[tactic(auto, using(crate::proofs::Checks::map_checked))]
pub fn check_map(s: &[u8], at: usize) -> Result<(u16, usize), Fault>
    ensures { (maps : ℕ) → result ≡ checked_of (read_record s.now at Du.Map maps) }
{
    check_length(s, at, kinds::MAP, 0, 64)
}

// The same where a block is due.
#[tactic(auto, using(crate::proofs::Checks::block_checked))]
pub fn check_block(s: &[u8], at: usize) -> Result<(u16, usize), Fault>
    ensures { (maps : ℕ) → result ≡ checked_of (read_record s.now at Du.Block maps) }
{
    check_length(s, at, kinds::BLOCK, 4, 4)
}

// The same inside a block, where an instruction or a terminator is due, in a unit of so many maps.
#[tactic(auto, using(crate::proofs::Checks::good_instruction, crate::proofs::Checks::broken_instruction, crate::proofs::Checks::good_terminator, crate::proofs::Checks::broken_terminator, record::proofs::Frames::ends_inside), unfolding(crate::specs::Checked::checked_of, record::specs::Record::read_record, record::specs::Record::kind_due, record::specs::Record::not_due, record::specs::Payload::payload_at, record::specs::Frame::whole_at, record::specs::Frame::next_at))]
pub fn check_inside(s: &[u8], at: usize, maps: u16) -> Result<(u16, usize), Fault>
    ensures { result ≡ checked_of (read_record s.now at Du.Inside maps) }
{
    let len = wire::get_u16(s, at) as usize;
    if record::whole(s.len(), at, len) {
        let kind = wire::get_u16(s, at + 2);
        if kind == kinds::INSTRUCTION {
            if instruction::instruction_ok(s, at + 4, len, maps) {
                return Ok((kinds::INSTRUCTION, at + 4 + len));
            }
            return Err(Fault::Broken(at));
        }
        if kind == kinds::TERMINATOR {
            if terminator::terminator_ok(s, at + 4, len) {
                return Ok((kinds::TERMINATOR, at + 4 + len));
            }
            return Err(Fault::Broken(at));
        }
        return Err(Fault::NotDue(at));
    }
    Err(Fault::Cut(at))
}
