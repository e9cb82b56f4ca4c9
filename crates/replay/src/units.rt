// Units, read whole: the counts or the refusal, and the name of the map asked for.
use crate::input::{self, List};
use crate::output::{self, Hex};
use std::io::{self, Read};
use std::rt::Files;

fn reading(out: &impl Print, unit: &[u8]) -> io::Result<()> {
    match unitfile::read_unit(unit) {
        Ok(found) => { println!(out; "good maps {} blocks {}", found.maps, found.blocks) }
        Err(f) => output::refused(out, record::refusal(f)),
    }
}

fn name(out: &impl Print, unit: &[u8], map: u32) -> io::Result<()> {
    match unitfile::map_named(unit, map) {
        Ok(true) => println!(out; "named {}", Hex(unitfile::map_name(unit, map))),
        Ok(false) => println!(out; "no such map"),
        Err(f) => output::refused(out, record::refusal(f)),
    }
}

// A unit that is given by a prefix, and a pattern for the rest.
fn repeated<F: Read>(list: &mut List<F>, unit: &mut [u8]) -> io::Result<()> {
    let prefix = list.number()? as usize;
    if let Some(bytes) = unit.get_mut(..prefix) {
        list.fill(bytes)?;
    }
    let mut room = [0u8; 16384];
    let len = list.number()? as usize;
    if let Some(pattern) = room.get_mut(..len) {
        list.fill(pattern)?;
        if let Some(rest) = unit.get_mut(prefix..) {
            input::repeat(rest, pattern);
        }
    }
    Ok(())
}

fn case<F: Read>(out: &impl Print, list: &mut List<F>, buffer: &mut [u8]) -> io::Result<()> {
    let how = list.byte()?;
    let len = list.number()? as usize;
    let map = list.number()?;
    if let Some(unit) = buffer.get_mut(..len) {
        match how {
            Some(0) => list.fill(unit)?,
            _ => repeated(list, unit)?,
        }
        reading(out, unit)?;
        name(out, unit, map)?;
    }
    Ok(())
}

pub(crate) fn replay(rt: &(impl Files + Print)) -> io::Result<()> {
    let mut buffer = [0u8; 524288];
    input::open(rt, "units")?.each_case(|list| case(rt, list, &mut buffer))
}
