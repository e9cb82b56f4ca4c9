// The screen: code from anyone, judged exactly.
#![tactic(auto)]

ghost use Rattle.std.specs.Prelude.{◌≡◌, ℕ, ◌<◌, length, get_or, Ok};
ghost use Rattle.std.specs.Int.Count.{count_trailing_zeros};
ghost use Rattle.shape.specs.Code.{slots};
ghost use Rattle.paths.specs.Mask.{read_mask, lacking};
ghost use Rattle.paths.specs.Readable.{Readable, Told};
ghost use Rattle.screen.specs.Verdict.{refusal_of, of_fault, before_paths, Judged, Screened};
ghost use Rattle.screen.specs.Parts.{so_far, Apt, ended_of};

use paths::Ends;
use shape::{Shape, Shapes};
use wire::number::SlotNumber;
use wire::refusal::Refusal;

// Why a code is refused: a slot, the first u32 index of the relocations, a slot and a register, or the slot count.
#[derive(Drop)]
pub enum Fault {
    BadLength,
    ShortTable(u32),
    Unknown(usize),
    Register(usize),
    Unused(usize),
    Access(usize),
    Target(usize),
    Relocation(usize),
    Unreadable(usize, u8),
    PastEnd(usize),
}

// A function and no `From`: a call then says by its name that it gives the number, the place and the value.
#[tactic(auto, unfolding(crate::specs::Verdict::refusal_of))]
pub fn refusal(f: Fault) -> Refusal
    ensures { result ≡ refusal_of f }
{
    match f {
        Fault::BadLength => Refusal {
            number: 30,
            place: 0,
            value: 0,
        },
        Fault::ShortTable(slots) => Refusal {
            number: 31,
            place: 0,
            value: slots as i64,
        },
        Fault::Unknown(slot) => Refusal {
            number: 32,
            place: slot,
            value: 0,
        },
        Fault::Register(slot) => Refusal {
            number: 33,
            place: slot,
            value: 0,
        },
        Fault::Unused(slot) => Refusal {
            number: 34,
            place: slot,
            value: 0,
        },
        Fault::Access(slot) => Refusal {
            number: 35,
            place: slot,
            value: 0,
        },
        Fault::Target(slot) => Refusal {
            number: 36,
            place: slot,
            value: 0,
        },
        Fault::Relocation(index) => Refusal {
            number: 37,
            place: index,
            value: 0,
        },
        Fault::Unreadable(slot, register) => Refusal {
            number: 38,
            place: slot,
            value: register as i64,
        },
        Fault::PastEnd(slots) => Refusal {
            number: 39,
            place: slots,
            value: 0,
        },
    }
}

#[tactic(auto, unfolding(crate::specs::Verdict::of_shape, crate::specs::Verdict::of_fault))]
impl From<Shapes> for Fault {
    ghost from_gives = { λ shapes f. f ≡ of_fault shapes };

    fn from(shapes: Shapes) -> Fault {
        match shapes {
            Shapes::BadLength => Fault::BadLength,
            Shapes::Faulty(slot, shape) => match shape {
                Shape::Unknown => Fault::Unknown(slot),
                Shape::Register => Fault::Register(slot),
                Shape::Unused => Fault::Unused(slot),
                Shape::Access => Fault::Access(slot),
                Shape::Target => Fault::Target(slot),
            },
            Shapes::Relocation(index) => Fault::Relocation(index),
        }
    }
}

// The verdict before the paths are looked at; yes means so far.
fn before_paths(code: &[u8], relocs: &[u32], entries: usize) -> Result<(), Fault>
    ensures { so_far result ≡ before_paths code.now relocs.now entries }
{
    if !shape::length_ok(code) {
        return Err(Fault::BadLength);
    }
    let n = code.len() / 8;
    if entries < n {
        return Err(Fault::ShortTable(n as u32));
    }
    shape::judge(code, relocs)?;
    Ok(())
}

// The registers that are read at a slot and are not in its entry, bit r for register r.
fn lacking_at(code: &[u8], table: &[u16], s: usize) -> u16
    requires { ((s < length table.now) × (s < 131072)) × (get_or table.now s 0 < 2048) }
    ensures { result ≡ lacking (read_mask code.now s) (get_or table.now s 0) }
{
    paths::read_mask(code, SlotNumber(s as u32)) & (2047 - table[s])
}

// The lowest register of a mask.
fn lowest(mask: u16) -> u8
    ensures { result ≡ count_trailing_zeros 16 mask }
{
    u16::trailing_zeros(mask) as u8
}

// The verdict where no path lacks a register that is read.
fn ended(ends: Ends, slots: usize) -> Result<(), Fault>
    ensures { result ≡ ended_of ends slots }
{
    match ends {
        Ends::Inside => Ok(()),
        Ends::Past => Err(Fault::PastEnd(slots)),
        Ends::NotRun => Ok(()),
    }
}

// The verdict by the table that the analysis filled: the lowest slot first.
fn by_table(code: &[u8], table: &[u16], ends: Ends) -> Result<(), Fault>
    requires apt { Apt code.now (length table.now) }
    requires by_index { (s : ℕ) → s < slots code.now → Readable code.now s (get_or table.now s 0) }
    requires told { Told code.now ends }
    ensures { Judged code.now result }
{
    let n = code.len() / 8;
    for s in 0..n {
        let lacks = lacking_at(code, table, s);
        if 0 < lacks {
            let register = lowest(lacks);
            return Err(Fault::Unreadable(s, register));
        }
    }
    ended(ends, n)
}

// The verdict; the table is filled unless the code is refused before its paths are looked at.
pub fn screen(code: &[u8], relocs: &[u32], table: &mut [u16]) -> Result<(), Fault>
    ensures { Screened code.now relocs.now table.old result table.new }
{
    before_paths(code, relocs, table.len())?;
    let ends = paths::analyse(code, table);
    by_table(code, table, ends)
}
