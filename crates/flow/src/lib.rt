// The flow of a unit's blocks: which are emitted, and which block a target means.
// An id is found at its place in a table; keys are sorted and searched only where some block's id is not told by its place.
#![tactic(auto)]

mod blocks;
mod pending;
mod walk;

ghost use Rattle.std.specs.Prelude.{◌≡◌, List, [], ◌∷◌, ℕ, ◌*◌, ◌≤◌, length, IsTrue};
ghost use Rattle.wire.specs.Pick.{pick};
ghost use Rattle.flow.specs.Linked.{nodes, number_from, numbers, flags, linked_targets, linked_flags, room_for, room};
ghost use Rattle.flow.specs.Places.{Put};
ghost use Rattle.flow.specs.Sizes.{Alike, Hold};

use blocks::Blocks;

// Links blocks of which there is at least one and which are found by their ids.
fn link_found<const BLOCKS: usize, const PENDING: usize>(
    blocks: &Blocks,
    counts: &[u8],
    targets: &mut [u32],
    emitted: &mut [u8],
)
    requires sizes { Hold BLOCKS PENDING blocks.now.ids.now }
    requires same { Alike blocks.now.ids.now counts.now targets.old emitted.old }
    ensures targets_after { targets.new ≡ numbers blocks.now.ids.now targets.old }
    ensures emitted_after { emitted.new ≡ flags (nodes blocks.now.ids.now counts.now targets.old) blocks.now.ids.now }
{
    let ids = blocks.ids;
    let mut marks = [false; BLOCKS];
    blocks.put_numbers(targets);
    walk::reach::<PENDING>(blocks.find(ids[0]), counts, targets, &mut marks);
    blocks.put_flags(&marks, emitted);
}

// Links blocks of which some id is not told by its place.
fn link_sorted<const BLOCKS: usize, const PENDING: usize>(
    ids: &[u32],
    places: &[u16],
    counts: &[u8],
    targets: &mut [u32],
    emitted: &mut [u8],
)
    requires sizes { Hold BLOCKS PENDING ids.now }
    requires puts { (16 ≤ length places.now) × Put (length ids.now) ids.now places.now }
    requires same { Alike ids.now counts.now targets.old emitted.old }
    ensures targets_after { targets.new ≡ numbers ids.now targets.old }
    ensures emitted_after { emitted.new ≡ flags (nodes ids.now counts.now targets.old) ids.now }
{
    let n = ids.len();
    let mut table = [0u64; BLOCKS];
    let keys = &mut table[..n];
    blocks::put_keys(ids, keys);
    sort::sort(keys, n);
    let blocks = Blocks { ids, keys, places };
    link_found::<BLOCKS, PENDING>(&blocks, counts, targets, emitted);
}

// Links blocks by tables of these sizes, without keys where they are not needed. A table costs its filling.
fn link_with<const PLACES: usize, const BLOCKS: usize, const PENDING: usize>(
    ids: &[u32],
    counts: &[u8],
    targets: &mut [u32],
    emitted: &mut [u8],
)
    requires places { (16 ≤ PLACES) × (PLACES ≤ 4096) }
    requires sizes { Hold BLOCKS PENDING ids.now }
    requires same { Alike ids.now counts.now targets.old emitted.old }
    ensures targets_after { targets.new ≡ numbers ids.now targets.old }
    ensures emitted_after { emitted.new ≡ flags (nodes ids.now counts.now targets.old) ids.now }
{
    let mut table = [0u16; PLACES];
    blocks::put_places(ids, &mut table);
    let places = &table[..];
    if blocks::all_placed(ids, places) {
        let blocks = Blocks {
            ids,
            keys: &[],
            places,
        };
        link_found::<BLOCKS, PENDING>(&blocks, counts, targets, emitted);
    } else {
        link_sorted::<BLOCKS, PENDING>(ids, places, counts, targets, emitted);
    }
}

// The number of an only block where it has a target's id, else 1,024.
#[tactic(auto, unfolding(crate::specs::Linked::number_from))]
fn number_of_one(id: u32, target: u32) -> u32
    ensures { result ≡ number_from 0 (id ∷ []) target }
{
    if id == target { 0 } else { 1024 }
}

// An only block is emitted, and a target means it or none: so its count of targets tells nothing.
fn link_one(id: u32, targets: &mut [u32], emitted: &mut [u8])
    requires { length emitted.old ≡ 1 }
    ensures targets_after { targets.new ≡ numbers (id ∷ []) targets.old }
    ensures emitted_after { (counts : List ℕ) → emitted.new ≡ flags (nodes (id ∷ []) counts targets.old) (id ∷ []) }
{
    for target in targets.iter_mut() {
        *target = number_of_one(id, *target);
    }
    emitted[0] = 1;
}

// Links up to 1,024 blocks. A table costs its filling, so few blocks have small tables.
fn link_all(ids: &[u32], counts: &[u8], targets: &mut [u32], emitted: &mut [u8])
    requires few { length ids.now ≤ 1024 }
    requires same { Alike ids.now counts.now targets.old emitted.old }
    ensures targets_after { targets.new ≡ numbers ids.now targets.old }
    ensures emitted_after { emitted.new ≡ flags (nodes ids.now counts.now targets.old) ids.now }
{
    match ids.len() {
        0 => {}
        1 => link_one(ids[0], targets, emitted),
        2..=16 => link_with::<16, 16, 33>(ids, counts, targets, emitted),
        _ => link_with::<4096, 1024, 2049>(ids, counts, targets, emitted),
    }
}

// Whether there are at most 1,024 blocks, and tables of these lengths hold them.
#[tactic(auto, unfolding(crate::specs::Linked::room_for))]
fn has_room(n: usize, ids: usize, counts: usize, targets: usize, emitted: usize) -> bool
    ensures value { result ≡ room_for n ids counts targets emitted }
    ensures lengths { IsTrue result → (n ≤ 1024) × (n ≤ ids) × (n ≤ counts) × (2 * n ≤ targets) × (n ≤ emitted) }
{
    n <= 1024 && n <= ids && n <= counts && 2 * n <= targets && n <= emitted
}

// For the first n blocks: ids; how many targets each has (0, 1, or 2 for more); their ids at 2i and 2i + 1.
// Each target's id becomes the number of the last block that has it, 1,024 for none; emitted becomes 1 for each block whose id is reached, else 0.
// Where there are more than 1,024 blocks, or a table does not hold n, nothing changes.
// Numbers and bytes, and no Options or bools: the promise names these lists as they are lent.
pub fn link(n: usize, ids: &[u32], counts: &[u8], targets: &mut [u32], emitted: &mut [u8])
    ensures targets_after { targets.new ≡ pick (room n ids.now counts.now targets.old emitted.old) (linked_targets n ids.now targets.old) targets.old }
    ensures emitted_after { emitted.new ≡ pick (room n ids.now counts.now targets.old emitted.old) (linked_flags n ids.now counts.now targets.old emitted.old) emitted.old }
{
    if has_room(n, ids.len(), counts.len(), targets.len(), emitted.len()) {
        link_all(
            &ids[..n],
            &counts[..n],
            &mut targets[..2 * n],
            &mut emitted[..n],
        );
    }
}
