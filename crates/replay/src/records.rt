// Records, written: the bytes written or the refusal, and the whole buffer.
use crate::input::{self, List};
use crate::output::{self, Hex};
use ir::{Instruction, Opcode};
use record::{Due, Head, Record};
use std::io::{self, Read};
use std::rt::Files;

// An opcode with another map, which may be one that no unit has.
fn with_map(o: Opcode, map: u32) -> Opcode {
    match o {
        Opcode::CallMap { .. } => Opcode::CallMap { map },
        Opcode::UpdateMap { .. } => Opcode::UpdateMap { map },
        Opcode::RingBufReserve { size, .. } => Opcode::RingBufReserve { map, size },
        Opcode::RingBufSubmit { .. } => Opcode::RingBufSubmit { map },
        _ => o,
    }
}

fn mapped(r: Record, map: u32) -> Record {
    match r {
        Record::Instruction(i) => Record::Instruction(Instruction {
            opcode: with_map(i.opcode, map),
            ..i
        }),
        _ => r,
    }
}

// Where an opcode's map stands in its record: RingBufReserve's is the offset.
fn map_at(code: u8) -> Option<usize> {
    match code {
        0..=8 => None,
        11 => Some(12),
        _ => Some(16),
    }
}

// The map is taken out, so that the record can be read whatever it is.
fn taken_map(bytes: &mut [u8]) -> u32 {
    let Some(at) = map_at(wire::get_u8(bytes, 8)) else {
        return 0;
    };
    let map = wire::get_u32(bytes, at);
    wire::put_u32(bytes, at, 0);
    map
}

// A record's length and kind, which stand before its payload.
fn put_frame(record: &mut [u8], payload: u16, kind: u16) {
    wire::put_u16(record, 0, payload);
    wire::put_u16(record, 2, kind);
}

// An instruction's fields, which stand before its operands; the list leaves out a byte that is always 0.
fn fields_in<F: Read>(list: &mut List<F>, record: &mut [u8; 92]) -> io::Result<()> {
    list.fill(&mut record[4..11])?;
    list.fill(&mut record[12..20])
}

// Where a record is written, in a unit of so many maps, and where the answer is printed.
#[derive(Drop)]
struct Target<'a, P> {
    out: &'a P,
    maps: u16,
    buffer: &'a mut [u8],
}

impl<P: Print> Target<'_, P> {
    fn written(self, record: Record, names: &[u8]) -> io::Result<()> {
        let Target { out, maps, buffer } = self;
        match recordwriter::write_record(record, names, maps, buffer) {
            Ok(n) => println!(out; "wrote {n}")?,
            Err(f) => output::refused(out, recordwriter::refusal(f))?,
        }
        println!(out; "buffer {}", Hex(buffer))
    }

    // An instruction or a terminator is read from the bytes of its record, in a unit of as many maps as there can be.
    fn inside(self, bytes: &[u8], map: u32) -> io::Result<()> {
        let Ok((r, _)) = record::read_record(bytes, 0, Due::Inside, 65535) else {
            let out = self.out;
            return println!(out; "no record");
        };
        self.written(mapped(r, map), &[])
    }

    fn instruction<F: Read>(self, list: &mut List<F>) -> io::Result<()> {
        let mut bytes = [0u8; 92];
        fields_in(list, &mut bytes)?;
        let operands = 9 * u16::from(bytes[10]);
        let Some(record) = bytes.get_mut(..20 + operands as usize) else {
            return Ok(());
        };
        list.fill(&mut record[20..])?;
        let map = taken_map(record);
        put_frame(record, 16 + operands, 4);
        self.inside(record, map)
    }

    fn terminator<F: Read>(self, list: &mut List<F>) -> io::Result<()> {
        let mut bytes = [0u8; 22];
        list.fill(&mut bytes[4..5])?;
        let payload = match bytes[4] {
            0 => 10,
            1 => 5,
            _ => 18,
        };
        let record = &mut bytes[..4 + payload as usize];
        list.fill(&mut record[5..])?;
        put_frame(record, payload, 5);
        self.inside(record, 0)
    }

    fn name<F: Read>(self, list: &mut List<F>) -> io::Result<()> {
        let mut names = [0u8; 65540];
        let len = list.number()? as usize;
        if let Some(name) = names.get_mut(..len) {
            list.fill(name)?;
        }
        self.written(Record::Map { start: 0, len }, &names)
    }
}

fn head<F: Read>(list: &mut List<F>) -> io::Result<Head> {
    let counts = list.number()?;
    Ok(Head {
        edition: (counts % 65536) as u16,
        maps: (counts / 65536) as u16,
        blocks: list.number()?,
    })
}

fn case<F: Read>(out: &impl Print, list: &mut List<F>) -> io::Result<()> {
    let room = list.number()? as usize;
    let maps = (list.number()? % 65536) as u16;
    let Some(kind) = list.byte()? else {
        return Ok(());
    };
    let mut bytes = [0xaau8; 256];
    let Some(buffer) = bytes.get_mut(..room) else {
        return Ok(());
    };
    let to = Target { out, maps, buffer };
    match kind {
        1 => to.written(Record::Head(head(list)?), &[]),
        2 => to.name(list),
        3 => to.written(Record::Block(list.number()?), &[]),
        4 => to.instruction(list),
        _ => to.terminator(list),
    }
}

pub(crate) fn replay(rt: &(impl Files + Print)) -> io::Result<()> {
    input::open(rt, "records")?.each_case(|list| case(rt, list))
}
