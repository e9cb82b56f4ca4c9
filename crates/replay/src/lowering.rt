// Units, lowered: the counts, the code and the relocations, or the refusal.
use crate::hash;
use crate::input::{self, List};
use crate::output::{self, Hex};
use std::fmt;
use std::io::{self, Read};
use std::rt::Files;

// Room for the longest unit, the longest code and the most relocation numbers of the list.
#[derive(Drop)]
struct Room {
    unit: [u8; 131072],
    code: [u8; 524288],
    relocs: [u32; 8192],
}

fn code_told(out: &impl Print, code: &[u8]) -> io::Result<()> {
    if code.len() <= 3200 {
        println!(out; "{}", Hex(code))
    } else {
        println!(out; "fnv1a {:016x}", hash::fnv1a(code.iter().copied()))
    }
}

// The first so many pairs.
#[derive(Clone, Copy)]
struct Pairs<'a>(&'a [u32], u32);

impl fmt::Display for Pairs<'_> {
    fn fmt<W: fmt::Write>(&self, f: &mut fmt::Formatter<W>) -> fmt::Result {
        for (i, pair) in self.0.chunks_exact(2).take(self.1 as usize).enumerate() {
            if i > 0 {
                f.write_str(" ")?;
            }
            write!(f, "{}:{}", pair[0], pair[1])?;
        }
        Ok(())
    }
}

fn lowered(out: &impl Print, unit: &[u8], code: &mut [u8], relocs: &mut [u32]) -> io::Result<()> {
    match tracepoint::compile_tracepoint(unit, code, relocs) {
        Ok((n, m)) => {
            println!(out; "slots {n} relocs {m}")?;
            if let Some(slots) = code.get(..8 * (n as usize)) {
                code_told(out, slots)?;
            }
            println!(out; "{}", Pairs(relocs, m))
        }
        Err(f) => output::refused(out, tracepoint::refusal(f)),
    }
}

fn case<F: Read>(out: &impl Print, list: &mut List<F>, room: &mut Room) -> io::Result<()> {
    let len = list.number()? as usize;
    let n = list.number()? as usize;
    let m = list.number()? as usize;
    let Some(unit) = room.unit.get_mut(..len) else {
        return Ok(());
    };
    list.fill(unit)?;
    match (room.code.get_mut(..n), room.relocs.get_mut(..m)) {
        (Some(code), Some(relocs)) => lowered(out, unit, code, relocs),
        _ => Ok(()),
    }
}

pub(crate) fn replay(rt: &(impl Files + Print)) -> io::Result<()> {
    let mut room = Room {
        unit: [0; 131072],
        code: [0; 524288],
        relocs: [0; 8192],
    };
    input::open(rt, "lowering")?.each_case(|list| case(rt, list, &mut room))
}
