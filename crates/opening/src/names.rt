// The names of a unit's maps: no name twice.
ghost use Rattle.std.specs.Prelude.{◌≡◌, false, [], ◌≤◌, ◌<◌, take};
ghost use Rattle.wire.specs.Pick.{pick};
ghost use Rattle.opening.specs.Names.{names_at};
ghost use Rattle.opening.specs.Places.{map_at};
ghost use Rattle.opening.specs.Inner.{taken_from, contains, Signed, signed_with, one_more, maps_of};

use crate::signatures;
use record::Fault;

// Whether one of the k maps from a byte on has the name. They are known to be maps.
#[tactic(auto, using(crate::proofs::MapLaws::taken_stop), unfolding(crate::specs::Inner::taken_from))]
fn taken(s: &[u8], name: &[u8], first: usize, k: u16) -> bool
    ensures { result ≡ taken_from s.now name.now first k }
{
    let mut at = first;
    for _ in 0..k {
        let len = wire::get_u16(s, at) as usize;
        if !record::whole(s.len(), at, len) {
            return false;
        }
        let start = at + 4;
        let end = start + len;
        if name == &s[start..end] {
            return true;
        }
        at = end;
    }
    false
}

// The same, asked only where the name's signature is one of the first k in the table.
fn repeated(s: &[u8], name: &[u8], signature: u64, first: usize, k: u16, table: &[u64; 64]) -> bool
    requires { k ≤ 64 }
    ensures { result ≡ pick (contains (take k table.now) signature) (taken_from s.now name.now first k) false }
{
    table[..k as usize].contains(&signature) && taken(s, name, first, k)
}

// The map at a byte, after the k from the first on: no name twice. Its signature is kept with theirs.
#[tactic(auto, using(crate::proofs::MapLaws::lies_at, crate::proofs::SignedNames::by_signature), unfolding(crate::specs::Inner::one_more, crate::specs::Inner::signed_with))]
fn one_more(
    s: &[u8],
    first: usize,
    k: u16,
    at: usize,
    table: &mut [u64; 64],
) -> Result<usize, Fault>
    requires k_bound { k < 64 }
    requires signed { Signed s.now first k at table.old }
    ensures value { result ≡ one_more s.now first k at (map_at s.now at) }
    ensures table_after { table.new ≡ signed_with s.now table.old k (map_at s.now at) }
{
    let map = crate::map_at(s, at)?;
    let end = map.start + map.len;
    let name = &s[map.start..end];
    let signature = signatures::signature(name);
    let again = repeated(s, name, signature, first, k, table);
    table[k as usize] = signature;
    if again {
        return Err(Fault::Broken(at));
    }
    Ok(map.next)
}

// The maps from a byte on.
#[tactic(auto, using(crate::proofs::MapLaws::reached_refused, crate::proofs::SignedNames::reached), unfolding(crate::specs::Inner::maps_of))]
pub(crate) fn read_maps(s: &[u8], first: usize, maps: u16) -> Result<usize, Fault>
    requires { maps ≤ 64 }
    ensures { result ≡ maps_of (names_at s.now [] first maps) }
{
    let mut table = [0u64; 64];
    let mut at = first;
    for k in 0..maps {
        at = one_more(s, first, k, at, &mut table)?;
    }
    Ok(at)
}
