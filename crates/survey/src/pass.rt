// The pass over the blocks, one after the other.
ghost use Rattle.std.specs.Prelude.{◌≡◌, ◌≤◌, length, set, Ok};
ghost use Rattle.unitfile.specs.Unit.{read_unit, parse};
ghost use Rattle.survey.specs.Collected.{collected};
ghost use Rattle.survey.specs.Surveyed.{blocks_of, counted, surveyed_variables, surveyed_ids, surveyed_endings};
ghost use Rattle.survey.specs.Inner.{Holds, Over, tallied};

use crate::occurrences::Tally;
use crate::{Fault, occurrences};
use unitfile::Found;

// Where the pass stands after the instructions of a block: the tally, and the place of the terminator.
#[derive(Drop)]
pub struct Going {
    pub tally: Tally,
    pub at: usize,
}

// What does not fit into a lent list is not written.
fn keep(list: &mut [u32], i: usize, x: u32)
    ensures { list.new ≡ set list.old i x }
{
    if i < list.len() {
        list[i] = x;
    }
}

// The instructions from a byte on, kind 4 each; the record after them is the terminator of their block.
fn over_instructions(
    s: &[u8],
    variables: &mut [u32; 56],
    hints: &mut [u8; 256],
    tally: Tally,
    first: usize,
) -> Going
    requires holds { Holds tally variables.old }
    requires first_in_bounds { (first ≤ length s.now) × (length s.now ≤ 262144) }
    ensures { Over s.now first tally variables.old result variables.new }
{
    let mut counted = tally;
    let mut at = first;
    // no `for`: it ends where a record is no instruction
    while wire::get_u16(s, at + 2) == 4 {
        counted = occurrences::with_instruction(s, variables, hints, counted, at);
        at = at + 4 + wire::get_u16(s, at) as usize;
    }
    Going {
        tally: counted,
        at: at,
    }
}

fn answer(found: Found, tally: Tally) -> Result<(Found, usize), Fault>
    ensures { result ≡ tallied found tally }
{
    if 56 < tally.count {
        return Err(Fault::TooMany(tally.place));
    }
    Ok((found, tally.count))
}

// The blocks of a unit that was read whole: 8 bytes of block record, the instructions, the terminator.
pub(crate) fn survey_blocks(
    unit: &[u8],
    found: Found,
    variables: &mut [u32; 56],
    ids: &mut [u32],
    endings: &mut [u32],
) -> Result<(Found, usize), Fault>
    requires unit_value { read_unit unit.now ≡ Ok found }
    requires variables_len { length variables.old ≡ 56 }
    ensures value { result ≡ counted found (collected (blocks_of (parse unit.now))) }
    ensures variables_after { variables.new ≡ surveyed_variables unit.now variables.old }
    ensures ids_after { ids.new ≡ surveyed_ids unit.now ids.old }
    ensures endings_after { endings.new ≡ surveyed_endings unit.now endings.old }
{
    let n = found.blocks as usize;
    let mut at = found.body;
    let mut tally = Tally { count: 0, place: 0 };
    let mut hints = [0u8; 256];
    for k in 0..n {
        keep(ids, k, wire::get_u32(unit, at + 4));
        let g = over_instructions(unit, variables, &mut hints, tally, at + 8);
        let end = g.at;
        tally = occurrences::with_terminator(unit, variables, &mut hints, g.tally, end);
        keep(endings, k, end as u32);
        at = end + 4 + wire::get_u16(unit, end) as usize;
    }
    answer(found, tally)
}
