// A unit that was surveyed, pass by pass: what its terminators tell, what is emitted, how much it takes, where its jumps land, whether there is room. Then it is written.
ghost use Rattle.std.specs.Prelude.{◌≡◌, ◌<◌, length};
ghost use Rattle.unitfile.specs.Unit.{parse};
ghost use Rattle.survey.specs.Collected.{all, collected};
ghost use Rattle.survey.specs.Surveyed.{blocks_of};
ghost use Rattle.jumps.specs.Landed.{marked};
ghost use Rattle.tracepoint.specs.Compile.{lowering_of};
ghost use Rattle.passes.specs.Stages.{Surveyed, Ready};
ghost use Rattle.tracepoint.specs.Lent.{context_in, blocks_in};
ghost use Rattle.tracepoint.specs.Answers.{lowering_by, lowered_by, Answers};
ghost use Rattle.tracepoint.specs.Tables.{Spans};

use crate::context::{self, Context};
use crate::links::Links;
use crate::tables::Lists;
use crate::{Fault, measure, write};
use frame::{Frame, hint};
use unitfile::Found;
use wire::number::{SlotNumber, byte_offset};

// The refusals 21 and 22; or the code and the relocations, written.
fn write_roomed(
    context: Context<'_>,
    links: Links<'_>,
    edges: &[u32],
    slots: u32,
    maps: u32,
    code: &mut [u8],
    relocs: &mut [u32],
) -> Result<(u32, u32), Fault>
    requires { Ready (context_in context) (marked links.emitted.now) (blocks_in links) edges.now links.numbers.now slots maps }
    ensures { Answers (lowered_by (context_in context.entry) (marked links.entry.emitted.now) (blocks_in links.entry)) code.old relocs.old result code.new relocs.new }
{
    let bytes = byte_offset(SlotNumber(slots)).0 as u32;
    if code.len() < bytes as usize {
        return Err(Fault::CodeRoom(bytes));
    }
    let pairs = 2 * maps;
    if relocs.len() < pairs as usize {
        return Err(Fault::RelocRoom(pairs));
    }
    write::write_unit(context, links, edges, code, relocs);
    Ok((slots, maps))
}

// The first refusal of an emitted block, in file order; then those of the jumps, in patch order.
fn compile_linked(
    context: Context<'_>,
    links: Links<'_>,
    edges: &mut [u32],
    code: &mut [u8],
    relocs: &mut [u32],
) -> Result<(u32, u32), Fault>
    requires collects { collected (blocks_in links) ≡ all context.frame.variables.now }
    requires edges_size { links.found.blocks < length edges.old }
    ensures { Answers (lowering_by (context_in context.entry) (marked links.entry.emitted.now) (blocks_in links.entry)) code.old relocs.old result code.new relocs.new }
{
    let (slots, maps) = measure::measure(context, links, edges)?;
    let tables = jumps::Tables {
        emitted: links.emitted,
        edges,
        endings: links.endings,
        counts: links.counts,
        named: links.named,
        numbers: links.numbers,
    };
    jumps::check_jumps(links.found.blocks, &tables)?;
    write_roomed(context, links, edges, slots, maps, code, relocs)
}

// The branch conditions of all blocks, and the blocks that are emitted.
pub(crate) fn compile_surveyed(
    unit: &[u8],
    found: Found,
    variables: &[u32],
    lists: &mut Lists<'_>,
    code: &mut [u8],
    relocs: &mut [u32],
) -> Result<(u32, u32), Fault>
    requires surveyed { Surveyed unit.now found variables.now lists.old.ids.now lists.old.endings.now }
    requires spacious { Spans (length (blocks_of (parse unit.now))) lists.old }
    ensures { Answers (lowering_of (parse unit.now)) code.old relocs.old result code.new relocs.new }
{
    // each list by itself, since the passes read some while they write others
    let ids = &mut *lists.ids;
    let endings = &mut *lists.endings;
    let counts = &mut *lists.counts;
    let named = &mut *lists.named;
    let numbers = &mut *lists.numbers;
    let emitted = &mut *lists.emitted;
    let edges = &mut *lists.edges;
    let mut hints = [0u8; 256];
    hint::put_hints(variables, &mut hints);
    let frame = Frame {
        variables,
        hints: &hints,
    };
    let mut marks = [0u8; 56];
    context::note_blocks(
        unit, found, frame, endings, &mut marks, counts, named, numbers,
    );
    let n = found.blocks as usize;
    flow::link(n, ids, counts, numbers, emitted);
    let context = Context {
        frame,
        marks: &marks,
    };
    let links = Links {
        unit,
        found,
        emitted,
        numbers,
        endings,
        counts,
        named,
    };
    compile_linked(context, links, edges, code, relocs)
}
