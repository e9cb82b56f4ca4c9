// The registers readable on all paths through a code.
#![tactic(auto)]

mod node;
mod work;

ghost use Rattle.std.specs.Prelude.{◌≡◌};
ghost use Rattle.paths.specs.Mask.{read_mask};
ghost use Rattle.paths.specs.Readable.{Analysed};

use shape::slot::instruction_at;
use wire::number::SlotNumber;

// Whether a path passes the last slot; NotRun for a code with no slot, too many, or more than the table has entries.
#[derive(Drop)]
pub enum Ends {
    Inside,
    Past,
    NotRun,
}

// Fills the front of the table.
#[tactic(auto, unfolding(shape::specs::Code::slots))]
pub fn analyse(code: &[u8], table: &mut [u16]) -> Ends
    ensures { Analysed code.now table.old table.new result }
{
    let n = code.len() / 8;
    if n == 0 || 131072 < n || table.len() < n {
        return Ends::NotRun;
    }
    work::solve(code, &mut table[..n])
}

// The registers 0 to 10 that the instruction at a slot reads, bit r for register r; none past the end.
#[tactic(auto, unfolding(crate::specs::Mask::read_mask, shape::specs::Code::form_at))]
pub fn read_mask(code: &[u8], slot: SlotNumber) -> u16
    ensures { result ≡ read_mask code.now slot.0 }
{
    let i = instruction_at(code, slot);
    node::reads_of(i, insn::form::form_of(i.code))
}
