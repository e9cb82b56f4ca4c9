// Codes, screened: the verdict, and the table after the call.
ghost use Rattle.std.specs.Prelude.{◌≤◌, length, IfOk};

use crate::input::{self, List};
use crate::{hash, output};
use std::fmt;
use std::io::{self, Read};
use std::rt::Files;

// From this count on, it is one of pairs, and so much too high.
const PAIRS: u32 = 2147483648;

// Room for the longest code, the most relocation numbers and the longest table of the list.
#[derive(Drop)]
struct Room {
    code: [u8; 1048584],
    numbers: [u32; 131072],
    table: [u16; 132072],
}

// ---- a code: runs of slots, each repeated, and up to 7 bytes more

// Slots, as often as the list says and as they fit into the room; how many bytes they take.
fn run<F: Read>(list: &mut List<F>, room: &mut [u8]) -> io::Result<usize>
    ensures { IfOk result (λ n. n ≤ length room.new) }
{
    let times = list.number()? as usize;
    let n = 8 * (list.number()? as usize);
    if n == 0 || room.len() < n {
        return Ok(0);
    }
    let len = n.saturating_mul(times).min(room.len());
    let (slots, rest) = room.split_at_mut(n);
    list.fill(slots)?;
    input::repeat(&mut rest[..len.saturating_sub(n)], slots);
    Ok(len - len % n)
}

fn code_in<F: Read>(list: &mut List<F>, code: &mut [u8]) -> io::Result<usize> {
    let mut at = 0;
    for _ in 0..list.number()? {
        at += run(list, &mut code[at..])?;
    }
    let extra = list.number()? as usize;
    if let Some(bytes) = code.get_mut(at..at + extra) {
        list.fill(bytes)?;
    }
    Ok(at + extra)
}

// ---- relocations: numbers, or pairs in steps

fn numbers_in<F: Read>(list: &mut List<F>, count: u32, numbers: &mut [u32]) -> io::Result<()> {
    let mut room = numbers.iter_mut();
    for _ in 0..count {
        let n = list.number()?;
        if let Some(to) = room.next() {
            *to = n;
        }
    }
    Ok(())
}

// An offset that is no u32 is in no list, and is 0 here.
fn pairs_in<F: Read>(list: &mut List<F>, count: u32, numbers: &mut [u32]) -> io::Result<()> {
    let mut offset = u64::from(list.number()?);
    let step = u64::from(list.number()?);
    for (pair, i) in numbers.chunks_exact_mut(2).zip(0..count) {
        pair[0] = u32::try_from(offset).unwrap_or(0);
        pair[1] = i;
        offset = offset.wrapping_add(step);
    }
    Ok(())
}

fn relocations_in<F: Read>(list: &mut List<F>, numbers: &mut [u32]) -> io::Result<usize> {
    let count = list.number()?;
    if count < PAIRS {
        numbers_in(list, count, numbers)?;
        return Ok(count as usize);
    }
    pairs_in(list, count - PAIRS, numbers)?;
    Ok(2 * ((count - PAIRS) as usize))
}

// ---- the table

#[derive(Clone, Copy)]
struct Entries<'a>(&'a [u16]);

impl fmt::Display for Entries<'_> {
    fn fmt<W: fmt::Write>(&self, f: &mut fmt::Formatter<W>) -> fmt::Result {
        for (i, x) in self.0.iter().enumerate() {
            if i > 0 {
                f.write_str(" ")?;
            }
            write!(f, "{x:04x}")?;
        }
        Ok(())
    }
}

fn told(out: &impl Print, table: &[u16]) -> io::Result<()> {
    if table.len() <= 40 {
        println!(out; "{}", Entries(table))
    } else {
        println!(out;
            "fnv1a {:016x}",
            hash::fnv1a(table.iter().flat_map(|x| x.to_le_bytes()))
        )
    }
}

// ---- a case

fn judged(out: &impl Print, code: &[u8], relocs: &[u32], table: &mut [u16]) -> io::Result<()> {
    table.fill(0xaaaa);
    match screen::screen(code, relocs, table) {
        Ok(()) => println!(out; "yes")?,
        Err(f) => output::refused(out, screen::refusal(f))?,
    }
    told(out, table)
}

fn case<F: Read>(out: &impl Print, list: &mut List<F>, room: &mut Room) -> io::Result<()> {
    let n = code_in(list, &mut room.code)?;
    let m = relocations_in(list, &mut room.numbers)?;
    let k = list.number()? as usize;
    match (
        room.code.get(..n),
        room.numbers.get(..m),
        room.table.get_mut(..k),
    ) {
        (Some(code), Some(relocs), Some(table)) => judged(out, code, relocs, table),
        _ => Ok(()),
    }
}

pub(crate) fn replay(rt: &(impl Files + Print)) -> io::Result<()> {
    let mut room = Room {
        code: [0; 1048584],
        numbers: [0; 131072],
        table: [0; 132072],
    };
    input::open(rt, "codes")?.each_case(|list| case(rt, list, &mut room))
}
