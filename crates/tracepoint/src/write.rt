// The code and the relocations of a unit, written where there is room for all of them.
ghost use Rattle.std.specs.Prelude.{◌≡◌, true, List, [], ◌∷◌, ℕ, ◌+◌, ◌*◌, ◌≤◌, ◌<◌, length, get_or, Ok};
ghost use Rattle.std.proofs.lemmas.List.Edits.{sets};
ghost use Rattle.wire.specs.Range.{fits16};
ghost use Rattle.wire.specs.Number.{bytes_before};
ghost use Rattle.lower.specs.Op.{slots_of};
ghost use Rattle.lower.specs.Held.{ending_ops};
ghost use Rattle.lower.specs.Payload.{scratch_in};
ghost use Rattle.layout.specs.Layout.{at, ops, unit_ops};
ghost use Rattle.layout.specs.Jumps.{Start, starts, lands, distance};
ghost use Rattle.layout.specs.Code.{insns, code_bytes, relocations};
ghost use Rattle.layout.specs.Inner.{keep_by};
ghost use Rattle.jumps.specs.Landed.{marked};
ghost use Rattle.tracepoint.specs.Lent.{context_in, blocks_in};
ghost use Rattle.passes.specs.Tables.{relocs_by, Tables, Room, unit_landing};
ghost use Rattle.passes.specs.Put.{slot_to, jump_of, insns_to, reaches, Relocates, RoomAt, Puts, Written};
ghost use Rattle.passes.specs.Places.{instruction_by, places, ring_on, ring_by, ops_at, ring_at, end_slot, end_ops, block_ops, block_ring};

use crate::context::Context;
use crate::links::Links;
use insn::Insn;
use lower::Ending;
use wire::number::{ByteOffset, SlotNumber, byte_offset};

// The next slot of the code, and how many numbers the relocations have so far.
#[derive(Drop)]
pub struct Front {
    pub slot: SlotNumber,
    pub relocs: usize,
}

// The front after one or more records, and the scratch ring's position. What is written stays two parameters: a struct of two `&mut` makes each contract say that it still holds the same two.
#[derive(Drop)]
pub struct Passed {
    pub front: Front,
    pub scratch: u8,
}

// ---- instructions

fn put(code: &mut [u8], slot: SlotNumber, i: Insn)
    requires { bytes_before slot.0 + 8 ≤ length code.old }
    ensures { code.new ≡ sets code.old (bytes_before slot.0) (code_bytes (i ∷ [])) }
{
    insn::put_insn(code, byte_offset(slot).0 as usize, i);
}

// The front after so many slots; a map's load is the first of them and has a relocation.
#[tactic(auto, unfolding(passes::specs::Tables::relocs_by, passes::specs::Put::relocations_by))]
fn put_relocation(relocs: &mut [u32], front: Front, map: Option<u32>, slots: u32) -> Front
    requires { (front.slot.0 + slots ≤ 851969) × (front.relocs + 2 * relocs_by map ≤ length relocs.old) }
    ensures { Relocates map slots front.slot.0 front.relocs relocs.old result.slot.0 result.relocs relocs.new }
{
    let slot = front.slot;
    let t = front.relocs;
    let next = SlotNumber(slot.0 + slots);
    match map {
        None => Front {
            slot: next,
            relocs: t,
        },
        Some(m) => {
            let after = t + 2;
            let ByteOffset(bytes) = byte_offset(slot);
            relocs[t] = bytes as u32;
            relocs[t + 1] = m;
            Front {
                slot: next,
                relocs: after,
            }
        }
    }
}

// The scratch ring's position after an instruction: only one that loads a map's address takes cells of the ring.
#[tactic(auto, unfolding(passes::specs::Places::ring_on))]
fn ring_after(map: Option<u32>, j: u8, payload: &[u8]) -> u8
    ensures { result ≡ ring_on map j (scratch_in j payload.now) }
{
    match map {
        None => j,
        Some(_) => lower::scratch_after(j, payload),
    }
}

// What an instruction becomes, by its payload.
fn put_instruction(
    context: Context<'_>,
    payload: &[u8],
    code: &mut [u8],
    relocs: &mut [u32],
    passed: Passed,
) -> Passed
    requires { RoomAt (ops (at 0 (instruction_by (context_in context) passed.scratch payload.now))) passed.front.slot.0 passed.front.relocs (length code.old) (length relocs.old) }
    ensures puts { (xs : List Start) → Puts (insns xs) (ops (at 0 (instruction_by (context_in context.entry) passed.scratch payload.now))) passed.front.slot.0 passed.front.relocs code.old relocs.old result.front.slot.0 result.front.relocs code.new relocs.new }
    ensures scratch_value { result.scratch ≡ ring_by (context_in context.entry) passed.scratch payload.now }
{
    let condition = context.condition_of(payload);
    // by its parts, since a struct that goes on whole takes its padding along, through memory, at each record
    let Passed { front, scratch: j } = passed;
    let slot = front.slot;
    let Ok(e) = lower::lower_instruction(
        code,
        byte_offset(slot).0 as usize,
        context.frame,
        j,
        condition,
        payload,
    ) else {
        // a refused one puts nothing
        return Passed { front, scratch: j };
    };
    Passed {
        front: put_relocation(relocs, front, e.map, e.slots),
        scratch: ring_after(e.map, j, payload),
    }
}

// ---- jumps

fn jump(opcode: u8, target: SlotNumber, own: SlotNumber) -> Insn
    requires { fits16 (distance target.0 own.0) ≡ true }
    ensures { result ≡ jump_of opcode (distance target.0 own.0) }
{
    Insn {
        code: opcode,
        dst: 0,
        src: 0,
        off: jumps::distance(target, own) as i16,
        imm: 0,
    }
}

// The slot at which the block with a number begins; past the last edge it is the number of none.
fn first_slot(edges: &[u32], number: u32) -> SlotNumber
    ensures { result.0 ≡ get_or edges.now number 0 }
{
    SlotNumber(edges.get(number as usize).copied().unwrap_or(0))
}

// What a terminator becomes; its targets begin at the slots a and b.
fn put_ending(code: &mut [u8], front: Front, t: Ending, a: SlotNumber, b: SlotNumber) -> Front
    requires t_value { reaches a.0 b.0 front.slot.0 (ops (at 0 (ending_ops (Ok t)))) ≡ true }
    requires t_bound { (front.slot.0 + slots_of (ops (at 0 (ending_ops (Ok t)))) ≤ 851969) × (bytes_before (front.slot.0 + slots_of (ops (at 0 (ending_ops (Ok t))))) ≤ length code.old) }
    ensures { (relocs : List ℕ) → Puts (insns_to a.0 b.0) (ops (at 0 (ending_ops (Ok t)))) front.slot.0 front.relocs code.old relocs result.slot.0 result.relocs code.new relocs }
{
    let slot = front.slot;
    let s = slot.0;
    match t {
        Ending::Return(i) => {
            put(code, slot, i);
            put(
                code,
                SlotNumber(s + 1),
                Insn {
                    code: insn::BPF_EXIT,
                    dst: 0,
                    src: 0,
                    off: 0,
                    imm: 0,
                },
            );
            Front {
                slot: SlotNumber(s + 2),
                relocs: front.relocs,
            }
        }
        Ending::Jump(_) => {
            put(code, slot, jump(insn::BPF_JA, a, slot));
            Front {
                slot: SlotNumber(s + 1),
                relocs: front.relocs,
            }
        }
        Ending::Branch(i, _, _) => {
            let second = SlotNumber(s + 1);
            let third = SlotNumber(s + 2);
            put(code, slot, i);
            put(code, second, jump(insn::BPF_JNE_IMM, a, second));
            put(code, third, jump(insn::BPF_JA, b, third));
            Front {
                slot: SlotNumber(s + 3),
                relocs: front.relocs,
            }
        }
    }
}

// ---- blocks

// What the instructions become whose records stand from a byte to another.
fn put_instructions(
    unit: &[u8],
    context: Context<'_>,
    first: usize,
    end: usize,
    code: &mut [u8],
    relocs: &mut [u32],
    passed: Passed,
) -> Passed
    requires within { (end + 4 ≤ length unit.now) × (length unit.now ≤ 262144) }
    requires room_at { RoomAt (ops_at (context_in context) unit.now passed.scratch (places unit.now first end)) passed.front.slot.0 passed.front.relocs (length code.old) (length relocs.old) }
    ensures puts { (xs : List Start) → Puts (insns xs) (ops_at (context_in context.entry) unit.now passed.scratch (places unit.now first end)) passed.front.slot.0 passed.front.relocs code.old relocs.old result.front.slot.0 result.front.relocs code.new relocs.new }
    ensures scratch_value { result.scratch ≡ ring_at (context_in context.entry) unit.now passed.scratch (places unit.now first end) }
{
    let mut at = first;
    let mut passed = passed;
    // no `for`: a step is as long as the record
    while at < end {
        let payload = &unit[at + 4..];
        passed = put_instruction(context, payload, code, relocs, passed);
        at = at + 4 + wire::get_u16(unit, at) as usize;
    }
    passed
}

// What block k becomes, if it is emitted: the instructions from a byte on, then the terminator at the byte `end`.
fn put_block(
    context: Context<'_>,
    links: Links<'_>,
    edges: &[u32],
    k: usize,
    first: usize,
    end: usize,
    code: &mut [u8],
    relocs: &mut [u32],
    passed: Passed,
) -> Passed
    requires within { (end + 4 ≤ length links.unit.now) × (k < links.found.blocks) }
    requires room_at { RoomAt (block_ops (context_in context) links.unit.now (marked links.emitted.now k) passed.scratch first end) passed.front.slot.0 passed.front.relocs (length code.old) (length relocs.old) }
    requires end_value { reaches (slot_to edges.now links.numbers.now (2 * k)) (slot_to edges.now links.numbers.now (2 * k + 1)) (end_slot (context_in context) links.unit.now passed.scratch first end passed.front.slot.0) (end_ops (context_in context) links.unit.now (marked links.emitted.now k) end) ≡ true }
    ensures puts { (xs : List Start) → Written xs (slot_to edges.now links.entry.numbers.now (2 * k)) (slot_to edges.now links.entry.numbers.now (2 * k + 1)) (end_slot (context_in context.entry) links.entry.unit.now passed.scratch first end passed.front.slot.0) (end_ops (context_in context.entry) links.entry.unit.now (marked links.entry.emitted.now k) end) → Puts (insns xs) (block_ops (context_in context.entry) links.entry.unit.now (marked links.entry.emitted.now k) passed.scratch first end) passed.front.slot.0 passed.front.relocs code.old relocs.old result.front.slot.0 result.front.relocs code.new relocs.new }
    ensures scratch_value { result.scratch ≡ block_ring (context_in context.entry) links.entry.unit.now (marked links.entry.emitted.now k) passed.scratch first end }
{
    if links.emitted[k] == 1 {
        let passed = put_instructions(links.unit, context, first, end, code, relocs, passed);
        let a = first_slot(edges, links.numbers[2 * k]);
        let b = first_slot(edges, links.numbers[2 * k + 1]);
        let t = recordparts::terminator::terminator_in(links.unit, end + 4);
        let front = match lower::lower_terminator(context.frame, t) {
            Ok(ending) => put_ending(code, passed.front, ending, a, b),
            Err(_) => passed.front, // nothing is put of what is refused
        };
        return Passed {
            front,
            scratch: passed.scratch,
        };
    }
    passed
}

// A unit that was read whole: slot 0, then the emitted blocks.
pub(crate) fn write_unit(
    context: Context<'_>,
    links: Links<'_>,
    edges: &[u32],
    code: &mut [u8],
    relocs: &mut [u32],
)
    requires tables { Tables (context_in context) (marked links.emitted.now) (blocks_in links) edges.now links.numbers.now }
    requires lands { unit_landing (context_in context) (marked links.emitted.now) (blocks_in links) ≡ lands }
    requires room { Room (ops (unit_ops (context_in context) (keep_by (marked links.emitted.now) 0 (blocks_in links)))) (length code.old) (length relocs.old) }
    ensures code_after { code.new ≡ sets code.old 0 (code_bytes (insns (starts (context_in context.entry) (keep_by (marked links.entry.emitted.now) 0 (blocks_in links.entry))) 0 (ops (unit_ops (context_in context.entry) (keep_by (marked links.entry.emitted.now) 0 (blocks_in links.entry)))))) }
    ensures relocs_after { relocs.new ≡ sets relocs.old 0 (relocations 0 (ops (unit_ops (context_in context.entry) (keep_by (marked links.entry.emitted.now) 0 (blocks_in links.entry))))) }
{
    let n = links.found.blocks as usize;
    put(
        code,
        SlotNumber(0),
        Insn {
            code: insn::BPF_MOV64_REG,
            dst: insn::R6,
            src: insn::R1,
            off: 0,
            imm: 0,
        },
    );
    let mut passed = Passed {
        front: Front {
            slot: SlotNumber(1),
            relocs: 0,
        },
        scratch: 0,
    };
    let mut at = links.found.body;
    for k in 0..n {
        let end = links.endings[k] as usize;
        passed = put_block(
            context,
            links,
            edges,
            k,
            at + 8,
            end,
            code,
            relocs,
            passed, // the ring goes on through the unit
        );
        at = end + 4 + wire::get_u16(links.unit, end) as usize;
    }
}
