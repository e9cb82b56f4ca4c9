// From a unit's bytes to instruction bytes and relocations.
#![tactic(auto)]

mod compile;
mod context;
mod links;
mod measure;
mod tables;
mod write;

ghost use Rattle.std.specs.Prelude.{◌≡◌, pos, length};
ghost use Rattle.unitfile.specs.Unit.{parse};
ghost use Rattle.survey.specs.Surveyed.{blocks_of};
ghost use Rattle.tracepoint.specs.Compile.{told, refusal_of, reason_refusal, lowering_of, compile_answer, compile_code, compile_relocs};
ghost use Rattle.tracepoint.specs.Answers.{Answers};
ghost use Rattle.tracepoint.specs.Faults.{of_survey, of_measure, of_jumps};
ghost use Rattle.tracepoint.specs.Tables.{Holds, Spans};

use jumps::Astray;
use lower::Reason;
use tables::Lists;
use wire::refusal::Refusal;

// Why a unit is not compiled.
#[derive(Drop)]
pub enum Fault {
    Reading(record::Fault),
    Variables(usize),
    Instruction(usize, Reason),
    NoTarget(usize, u32),
    TooFar(usize, u32),
    CodeRoom(u32),
    RelocRoom(u32),
}

// ---- the faults of the passes

#[tactic(auto, unfolding(crate::specs::Faults::of_survey))]
impl From<survey::Fault> for Fault {
    ghost from_gives = { λ f e. e ≡ of_survey f };

    fn from(f: survey::Fault) -> Fault {
        match f {
            survey::Fault::Reading(reading) => Fault::Reading(reading),
            survey::Fault::TooMany(place) => Fault::Variables(place),
        }
    }
}

impl From<(usize, Reason)> for Fault {
    ghost from_gives = { λ f e. e ≡ of_measure f };

    fn from((place, reason): (usize, Reason)) -> Fault {
        Fault::Instruction(place, reason)
    }
}

#[tactic(auto, unfolding(crate::specs::Faults::of_jumps))]
impl From<Astray> for Fault {
    ghost from_gives = { λ f e. e ≡ of_jumps f };

    fn from(f: Astray) -> Fault {
        match f {
            Astray::NoTarget(place, id) => Fault::NoTarget(place, id),
            Astray::TooFar(place, id) => Fault::TooFar(place, id),
        }
    }
}

// ---- refusals

fn told(number: u8, place: usize, value: i64) -> Refusal
    ensures { result ≡ told number place value }
{
    Refusal {
        number,
        place,
        value,
    }
}

#[tactic(auto, unfolding(crate::specs::Compile::reason_refusal))]
fn reason_refusal(place: usize, reason: Reason) -> Refusal
    ensures { result ≡ reason_refusal place reason }
{
    match reason {
        Reason::Count(n) => told(11, place, i64::from(n)),
        Reason::Immediate(z) => told(12, place, z),
        Reason::Offset(z) => told(13, place, i64::from(z)),
        Reason::LoadSize(n) => told(14, place, i64::from(n)),
        Reason::StoreSize(n) => told(15, place, i64::from(n)),
        Reason::Helper16 => told(16, place, 16),
        Reason::Helper(id) => told(17, place, i64::from(id)),
        Reason::NoCell(v) => told(20, place, i64::from(v)),
    }
}

// 01's number, place and value of each fault. A function and no `From`, since a reason needs its place beside it and callers name this one.
#[tactic(auto, unfolding(crate::specs::Compile::refusal_of))]
pub fn refusal(f: Fault) -> Refusal
    ensures { result ≡ refusal_of f }
{
    match f {
        Fault::Reading(g) => record::refusal(g),
        Fault::Variables(place) => told(10, place, 57),
        Fault::Instruction(place, reason) => reason_refusal(place, reason),
        Fault::NoTarget(place, id) => told(18, place, i64::from(id)),
        Fault::TooFar(place, id) => told(19, place, i64::from(id)),
        Fault::CodeRoom(needed) => told(21, 0, i64::from(needed)),
        Fault::RelocRoom(needed) => told(22, 0, i64::from(needed)),
    }
}

// ---- a unit's bytes to code and relocations

// Over lent lists that hold the unit's blocks.
fn compile_in(
    unit: &[u8],
    lists: &mut Lists<'_>,
    code: &mut [u8],
    relocs: &mut [u32],
) -> Result<(u32, u32), Fault>
    requires { Spans (length (blocks_of (parse unit.now))) lists.old }
    ensures { Answers (lowering_of (parse unit.now)) code.old relocs.old result code.new relocs.new }
{
    let mut variables = [0u32; 56];
    let (found, n) = survey::survey_unit(unit, &mut variables, lists.ids, lists.endings)?;
    compile::compile_surveyed(unit, found, &variables[0..n], lists, code, relocs)
}

// Over tables that hold the unit's blocks: for so many blocks, their targets, two a block, and their edges, one more than blocks.
fn compile_with<const BLOCKS: usize, const TARGETS: usize, const EDGES: usize>(
    unit: &[u8],
    code: &mut [u8],
    relocs: &mut [u32],
) -> Result<(u32, u32), Fault>
    requires { Holds (length (blocks_of (parse unit.now))) BLOCKS TARGETS EDGES }
    ensures { Answers (lowering_of (parse unit.now)) code.old relocs.old result code.new relocs.new }
{
    let mut ids = [0u32; BLOCKS];
    let mut endings = [0u32; BLOCKS];
    let mut counts = [0u8; BLOCKS];
    let mut named = [0u32; TARGETS];
    let mut numbers = [0u32; TARGETS];
    let mut emitted = [0u8; BLOCKS];
    let mut edges = [0u32; EDGES];
    let mut lists = Lists {
        ids: &mut ids,
        endings: &mut endings,
        counts: &mut counts,
        named: &mut named,
        numbers: &mut numbers,
        emitted: &mut emitted,
        edges: &mut edges,
    };
    compile_in(unit, &mut lists, code, relocs)
}

// The code fills the front of its buffer, the relocations' pairs of byte offset and map number that of theirs; a refused call changes neither.
#[tactic(auto, unfolding(crate::specs::Compile::compile_answer, crate::specs::Compile::compile_code, crate::specs::Compile::compile_relocs))]
pub fn compile_tracepoint(
    unit: &[u8],
    code: &mut [u8],
    relocs: &mut [u32],
) -> Result<(u32, u32), Fault>
    ensures value { result ≡ compile_answer unit.now (length code.old) (length relocs.old) }
    ensures code_after { code.new ≡ compile_code unit.now code.old (length relocs.old) }
    ensures relocs_after { relocs.new ≡ compile_relocs unit.now (length code.old) relocs.old }
{
    // where a unit's head counts its blocks; a table costs its filling, so one block has the smallest, and few have small ones
    let blocks = wire::get_u32(unit, 8);
    if blocks <= 1 {
        return compile_with::<1, 2, 2>(unit, code, relocs);
    }
    if blocks <= 16 {
        return compile_with::<16, 32, 17>(unit, code, relocs);
    }
    compile_with::<1024, 2048, 1025>(unit, code, relocs)
}
