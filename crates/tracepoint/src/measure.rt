// How many slots and relocations a unit's blocks take and where each block begins; or the first refusal.
ghost use Rattle.std.specs.Prelude.{◌≡◌, ◌≤◌, ◌<◌, length};
ghost use Rattle.recordparts.specs.Terminator.{terminator_in};
ghost use Rattle.survey.specs.Collected.{all, collected};
ghost use Rattle.lower.specs.Terminator.{terminator};
ghost use Rattle.size.specs.Size.{every_cell};
ghost use Rattle.layout.specs.Layout.{at};
ghost use Rattle.jumps.specs.Landed.{marked};
ghost use Rattle.passes.specs.Tables.{size_by, load_size, Sized, Measured};
ghost use Rattle.tracepoint.specs.Lent.{context_in, blocks_in};
ghost use Rattle.passes.specs.Rows.{Row, RowSized, SomeBlock, BlockTakes};

use crate::context::Context;
use crate::links::Links;
use ir::Operand;
use lower::{Emitted, Reason};

// No `?` where a pair is handed on: it moves the pair as one word, which waits for both its halves.

// ---- instructions

#[tactic(auto, unfolding(passes::specs::Tables::size_by, passes::specs::Tables::relocs_by))]
// Slots and relocations, or the refused record's place and why: pairs, since no other part of them is asked.
fn size_of(place: usize, e: Result<Emitted, Reason>) -> Result<(u32, u32), (usize, Reason)>
    ensures { result ≡ size_by place e }
{
    match e {
        Ok(e) => Ok((e.slots, u32::from(e.map.is_some()))),
        Err(reason) => Err((place, reason)),
    }
}

// The instructions that stand from a byte to another.
fn size_of_instructions(
    unit: &[u8],
    context: Context<'_>,
    first: usize,
    end: usize,
) -> Result<(u32, u32), (usize, Reason)>
    requires row { Row (context_in context).frame unit.now end first }
    requires within { (end ≤ length unit.now) × (length unit.now ≤ 262144) }
    ensures { RowSized (context_in context.entry) unit.now end first result }
{
    let mut slots = 0;
    let mut relocs = 0;
    let mut at = first;
    // no `for`: a step is as long as the record
    while at < end {
        let payload = &unit[at + 4..];
        let condition = context.condition_of(payload);
        match size_of(at, size::size_instruction(condition, payload)) {
            Ok((s, r)) => {
                slots += s;
                relocs += r;
            }
            Err(refused) => return Err(refused),
        }
        at = at + 4 + wire::get_u16(unit, at) as usize;
    }
    Ok((slots, relocs))
}

// ---- terminators

// A terminator that loads a constant, which must lie in i32, and takes so many slots.
#[tactic(auto, unfolding(passes::specs::Tables::load_size))]
fn size_of_constant(place: usize, z: i64, slots: u32) -> Result<(u32, u32), (usize, Reason)>
    ensures { result ≡ load_size place (Operand.Immediate z) slots }
{
    if wire::range::fits32(z) {
        return Ok((slots, 0));
    }
    Err((place, Reason::Immediate(z)))
}

// The same of any operand: a variable has a cell.
#[tactic(auto, unfolding(passes::specs::Tables::load_size))]
fn size_of_loading(place: usize, o: Operand, slots: u32) -> Result<(u32, u32), (usize, Reason)>
    ensures { result ≡ load_size place o slots }
{
    match o {
        Operand::Var(_) => Ok((slots, 0)),
        Operand::Immediate(z) => size_of_constant(place, z, slots),
    }
}

// The terminator at a place, by its payload: each variable has a cell.
fn size_of_ending(place: usize, payload: &[u8]) -> Result<(u32, u32), (usize, Reason)>
    ensures { Sized (at place (terminator every_cell (terminator_in payload.now 0))) result }
{
    let form = wire::get_u8(payload, 0);
    if form == 0 {
        return size_of_loading(place, operand::operand_in(payload, 1), 2);
    }
    if form == 1 {
        return Ok((1, 0));
    }
    size_of_loading(place, operand::operand_in(payload, 1), 3)
}

// ---- blocks

// A block whose instructions stand from a byte to another, where its terminator stands.
fn size_of_block(
    unit: &[u8],
    context: Context<'_>,
    emits: bool,
    first: usize,
    end: usize,
) -> Result<(u32, u32), (usize, Reason)>
    requires some_block { SomeBlock (context_in context).frame unit.now first end }
    requires short { length unit.now ≤ 262144 }
    ensures { BlockTakes (context_in context.entry) unit.now emits first end result }
{
    if emits {
        return match size_of_instructions(unit, context, first, end) {
            Ok((slots, relocs)) => match size_of_ending(end, &unit[end + 4..]) {
                Ok((s, r)) => Ok((slots + s, relocs + r)),
                Err(refused) => Err(refused),
            },
            Err(refused) => Err(refused),
        };
    }
    Ok((0, 0))
}

// A unit that was read whole: slot 0, then the emitted blocks. Block k begins at edges[k] and ends before edges[k + 1].
pub(crate) fn measure(
    context: Context<'_>,
    links: Links<'_>,
    edges: &mut [u32],
) -> Result<(u32, u32), (usize, Reason)>
    requires collects { collected (blocks_in links) ≡ all context.frame.variables.now }
    requires edges_size { links.found.blocks < length edges.old }
    ensures { Measured (context_in context.entry) (marked links.entry.emitted.now) (blocks_in links.entry) edges.old result edges.new }
{
    let n = links.found.blocks as usize;
    let mut slots = 1;
    let mut relocs = 0;
    let mut at = links.found.body;
    edges[0] = 1;
    for k in 0..n {
        let end = links.endings[k] as usize;
        match size_of_block(links.unit, context, links.emitted[k] == 1, at + 8, end) {
            Ok((s, r)) => {
                slots += s;
                relocs += r;
            }
            Err(refused) => return Err(refused),
        }
        edges[k + 1] = slots;
        at = end + 4 + wire::get_u16(links.unit, end) as usize;
    }
    Ok((slots, relocs))
}
