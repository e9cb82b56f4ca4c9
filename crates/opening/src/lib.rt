// The head and the maps of a unit.
#![tactic(auto)]

mod names;
mod signatures;

ghost use Rattle.std.specs.Prelude.{◌≡◌, length};
ghost use Rattle.opening.specs.Names.{first_record, open_unit};
ghost use Rattle.opening.specs.Places.{head_of, map_at, map_from, body_of};
ghost use Rattle.opening.specs.Inner.{Lies};

use record::{Due, Fault, Head, Record};

// A map's record: where its name lies, and the byte after it.
#[derive(Clone, Copy)]
pub struct MapAt {
    pub start: usize,
    pub len: usize,
    pub next: usize,
}

// The head of a unit, which is at most 262,144 bytes long.
#[tactic(auto, using(std::proofs::lemmas::Bool::Decides::nat_tests), unfolding(crate::specs::Names::first_record, crate::specs::Places::head_of))]
pub fn head_at(s: &[u8]) -> Result<(Head, usize), Fault>
    ensures { result ≡ head_of (first_record s.now) }
{
    if 262144 < s.len() {
        return Err(Fault::TooLong);
    }
    let (record, next) = record::read_record(s, 0, Due::Head, 0)?;
    // by its fields, since a head that goes on whole is stored in parts and loaded at once, which waits for them
    let Record::Head(
        Head {
            edition,
            maps,
            blocks,
        },
    ) = record
    else {
        return Err(Fault::NoHead);
    };
    let head = Head {
        edition,
        maps,
        blocks,
    };
    Ok((head, next))
}

// The map's record at a byte.
pub(crate) fn map_at(s: &[u8], at: usize) -> Result<MapAt, Fault>
    ensures { (result ≡ map_at s.now at) × Lies (length s.now) result }
{
    let (_, next) = recordcheck::check_map(s, at)?;
    let start = at + 4;
    Ok(MapAt {
        start: start,
        len: next - start,
        next: next,
    })
}

// The map after k from a byte on.
#[tactic(auto, using(crate::proofs::MapLaws::from_step, crate::proofs::MapLaws::from_stop), unfolding(crate::specs::Places::map_from))]
pub fn map_from(s: &[u8], first: usize, k: u32) -> Result<MapAt, Fault>
    ensures { result ≡ map_from s.now first k }
{
    let mut at = first;
    for _ in 0..k {
        at = map_at(s, at)?.next;
    }
    map_at(s, at)
}

// The head and where the blocks begin, if no name of a map comes twice. Where there are no maps, no table of their signatures is filled.
#[tactic(auto, using(crate::proofs::Heads::few_maps, crate::proofs::Heads::open_shut), unfolding(crate::specs::Places::body_of))]
pub fn open_unit(s: &[u8]) -> Result<(Head, usize), Fault>
    ensures { result ≡ body_of (open_unit s.now) }
{
    let (head, first) = head_at(s)?;
    if head.maps == 0 {
        return Ok((head, first));
    }
    let at = names::read_maps(s, first, head.maps)?;
    Ok((head, at))
}
