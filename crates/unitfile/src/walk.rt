// The walk over the records of the blocks.

ghost use Rattle.std.specs.Prelude.{◌≡◌, ℕ, suc};
ghost use Rattle.unitfile.specs.Records.{in_block, at_block, records_from};
ghost use Rattle.unitfile.specs.Inner.{found_with, on_end};
ghost use Rattle.unitfile.specs.declared.Found.{Found};

use crate::Found;
use record::{Fault, kinds};

// The records of a block after its first, its instructions and its terminator: the block's end, or the refusal.
fn rest_of_block(s: &[u8], first: usize, maps: u16) -> Result<usize, Fault>
    ensures { (found : Found) (blocks : ℕ) → found_with found (records_from s.now maps (in_block first blocks)) ≡ on_end found s.now maps blocks result }
{
    let mut at = first;
    // no `for`: it ends at the terminator
    loop {
        let (kind, next) = recordcheck::check_inside(s, at, maps)?;
        if kind != kinds::INSTRUCTION {
            return Ok(next);
        }
        at = next;
    }
}

// A whole block.
fn one_block(s: &[u8], at: usize, maps: u16) -> Result<usize, Fault>
    ensures { (found : Found) (blocks : ℕ) → found_with found (records_from s.now maps (at_block at (suc blocks))) ≡ on_end found s.now maps blocks result }
{
    let (_, next) = recordcheck::check_block(s, at)?;
    rest_of_block(s, next, maps)
}

// The blocks of a unit whose maps were read.
pub(crate) fn read_blocks(s: &[u8], found: Found) -> Result<Found, Fault>
    ensures { result ≡ found_with found (records_from s.now found.maps (at_block found.body found.blocks)) }
{
    let maps = found.maps;
    let mut at = found.body;
    for _ in 0..found.blocks {
        at = one_block(s, at, maps)?;
    }
    if at == s.len() {
        return Ok(found);
    }
    Err(Fault::NotDue(at))
}
