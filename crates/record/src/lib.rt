// One record of the unit file, read.
#![tactic(auto)]

pub mod instruction;
pub mod kinds;
pub mod payload;
pub mod terminator;

ghost use Rattle.std.specs.Prelude.{false, ◌≡◌, ◌+◌, leb};
ghost use Rattle.wire.specs.Pick.{pick};
ghost use Rattle.record.specs.Payload.{kind_of};
ghost use Rattle.record.specs.Record.{read_record, refusal_of, kind_due, refused_as};

use ir::{Instruction, Terminator};
use wire::refusal::Refusal;

#[derive(Clone, Copy)]
pub struct Head {
    pub edition: u16,
    pub maps: u16,
    pub blocks: u32,
}

// A record's value. A map's is where its name lies.
#[derive(Clone, Copy)]
pub enum Record {
    Head(Head),
    Map { start: usize, len: usize },
    Block(u32),
    Instruction(Instruction),
    Terminator(Terminator),
}

// What may stand next in a unit: inside a block, an instruction or its terminator.
#[derive(Clone, Copy)]
pub enum Due {
    Head,
    Map,
    Block,
    Inside,
}

// Why a unit file is refused.
#[derive(Drop)]
pub enum Fault {
    TooLong,
    Cut(usize),
    NoHead,
    NotDue(usize),
    Broken(usize),
}

// A function and no `From`: a call then says by its name that it gives the number, the place and the value.
#[tactic(auto, unfolding(crate::specs::Record::refusal_of))]
pub fn refusal(f: Fault) -> Refusal
    ensures { result ≡ refusal_of f }
{
    match f {
        Fault::TooLong => Refusal {
            number: 1,
            place: 0,
            value: 0,
        },
        Fault::Cut(at) => Refusal {
            number: 2,
            place: at,
            value: 0,
        },
        Fault::NoHead => Refusal {
            number: 3,
            place: 0,
            value: 0,
        },
        Fault::NotDue(at) => Refusal {
            number: 4,
            place: at,
            value: 0,
        },
        Fault::Broken(at) => Refusal {
            number: 5,
            place: at,
            value: 0,
        },
    }
}

// Whether a record whose length is len lies whole in size bytes. No `&&` of all three: LLVM would then test at each caller again that the kind lies in them.
#[tactic(auto, using(std::proofs::lemmas::Bool::Decides::nat_tests))]
pub fn whole(size: usize, at: usize, len: usize) -> bool
    ensures { result ≡ pick (leb (at + 4) size) (leb (at + 4 + len) size) false }
{
    if size < 4 || size - 4 < at {
        return false;
    }
    len <= size - 4 - at
}

// The kind of the record that has a value.
#[tactic(auto, unfolding(crate::specs::Payload::kind_of))]
pub fn kind(value: Record) -> u16
    ensures { result ≡ kind_of value }
{
    match value {
        Record::Head(_) => kinds::HEAD,
        Record::Map { .. } => kinds::MAP,
        Record::Block(_) => kinds::BLOCK,
        Record::Instruction(_) => kinds::INSTRUCTION,
        Record::Terminator(_) => kinds::TERMINATOR,
    }
}

// Whether the kind is the one due.
#[tactic(auto, unfolding(crate::specs::Record::kind_due))]
fn kind_due(due: Due, kind: u16) -> bool
    ensures { result ≡ kind_due due kind }
{
    match due {
        Due::Head => kind == kinds::HEAD,
        Due::Map => kind == kinds::MAP,
        Due::Block => kind == kinds::BLOCK,
        Due::Inside => kind == kinds::INSTRUCTION || kind == kinds::TERMINATOR,
    }
}

// Where the head is due, what is no valid head is 3: by its kind, and by its payload.
fn refused_as(due: Due, fault: Fault) -> Fault
    ensures { result ≡ refused_as due fault }
{
    match due {
        Due::Head => Fault::NoHead,
        _ => fault,
    }
}

// The record that is due at a byte of the unit, in a unit of so many maps.
#[tactic(auto, using(crate::proofs::Frames::ends_inside), unfolding(crate::specs::Record::read_record, crate::specs::Record::on_payload, crate::specs::Record::not_due, crate::specs::Record::broken, crate::specs::Frame::whole_at, crate::specs::Frame::next_at))]
pub fn read_record(s: &[u8], at: usize, due: Due, maps: u16) -> Result<(Record, usize), Fault>
    ensures { result ≡ read_record s.now at due maps }
{
    let len = wire::get_u16(s, at) as usize;
    if whole(s.len(), at, len) {
        let kind = wire::get_u16(s, at + 2);
        if kind_due(due, kind) {
            let Some(value) = payload::payload_at(s, kind, at + 4, len, maps) else {
                return Err(refused_as(due, Fault::Broken(at)));
            };
            return Ok((value, at + 4 + len));
        }
        return Err(refused_as(due, Fault::NotDue(at)));
    }
    Err(Fault::Cut(at))
}
