// The whole unit file.
#![tactic(auto)]

mod walk;

ghost use Rattle.std.specs.Prelude.{◌≡◌};
ghost use Rattle.unitfile.specs.Unit.{read_unit, parse};
ghost use Rattle.unitfile.specs.MapName.{place_of, pointed, name_part, named_of};

use record::Fault;

// A unit that was read whole: how many maps and blocks it has, and where its blocks begin.
#[derive(Clone, Copy)]
pub struct Found {
    pub maps: u16,
    pub blocks: u32,
    pub body: usize,
}

// The whole file, read record by record.
#[tactic(auto, using(crate::proofs::Whole::read_is, crate::proofs::Whole::found_body, crate::proofs::Whole::found_refused))]
pub fn read_unit(s: &[u8]) -> Result<Found, Fault>
    ensures { result ≡ read_unit s.now }
{
    let (head, body) = opening::open_unit(s)?;
    walk::read_blocks(
        s,
        Found {
            maps: head.maps,
            blocks: head.blocks,
            body: body,
        },
    )
}

// Where the bytes of a map's name lie inside the unit: its first byte and how many bytes it has; None where there is no such map.
pub fn map_place(s: &[u8], map: u32) -> Result<Option<(usize, usize)>, Fault>
    ensures { result ≡ place_of s.now (parse s.now) map }
{
    let found = read_unit(s)?;
    if map < found.maps as u32 {
        let (_, first) = opening::head_at(s)?;
        let place = opening::map_from(s, first, map)?;
        return Ok(Some((place.start, place.len)));
    }
    Ok(None)
}

// The part of the unit that is a map's name; no bytes for a refusal or where there is no such map.
#[tactic(auto, unfolding(crate::specs::MapName::name_part, crate::specs::MapName::part_at))]
pub fn map_name(s: &[u8], map: u32) -> &[u8]
    ensures { pointed result ≡ name_part s.entry map }
{
    match map_place(s, map) {
        Ok(Some((start, len))) => {
            let end = start + len;
            &s[start..end]
        }
        Ok(None) => &s[0..0],
        Err(_) => &s[0..0],
    }
}

// What tells a refusal and a missing map from an empty name.
pub fn map_named(s: &[u8], map: u32) -> Result<bool, Fault>
    ensures { result ≡ named_of (parse s.now) map }
{
    Ok(map_place(s, map)?.is_some())
}
