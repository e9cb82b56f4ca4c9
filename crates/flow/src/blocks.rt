// Blocks found by their ids: at an id's place in a table, or by sorted keys.
ghost use Rattle.std.specs.Prelude.{◌≡◌, ◌↔◌, ℕ, ◌+◌, ◌*◌, ◌≤◌, ◌<◌, IsTrue, MatchOption, false, length, get_or};
ghost use Rattle.std.specs.List.Sorted.{IsNonDecreasing, IsPartitionPoint};
ghost use Rattle.wire.specs.Pick.{pick};
ghost use Rattle.sort.specs.Sorted.{sorted};
ghost use Rattle.flow.specs.Linked.{number_from, numbers};
ghost use Rattle.flow.specs.Keys.{keys_from};
ghost use Rattle.flow.specs.Places.{place_of, told_at, Put, IsPlaced};

// The blocks' keys: id * 1024 + number.
pub(crate) fn put_keys(ids: &[u32], keys: &mut [u64])
    requires { (length ids.now ≤ 1024) × (length keys.old ≡ length ids.now) }
    ensures { keys.new ≡ keys_from 0 ids.now }
{
    for (i, id) in ids.iter().enumerate() {
        keys[i] = u64::from(*id) * 1024 + i as u64;
    }
}

// An id's place in a table of at least 16 places, of which 4,096 are used at most.
#[tactic(auto, unfolding(crate::specs::Places::place_of))]
fn place_of(len: usize, id: u32) -> usize
    ensures value { result ≡ place_of len id }
    ensures inside { 16 ≤ len → result < len }
{
    let place = (id % 4096) as usize;
    if place < len { place } else { place % 16 }
}

// Each block's number plus one, at its id's place; of two that share a place, the later block's.
pub(crate) fn put_places(ids: &[u32], places: &mut [u16])
    requires { (length ids.now ≤ 1024) × (16 ≤ length places.old) }
    ensures puts { Put (length ids.now) ids.now places.new }
    ensures len { length places.new ≡ length places.old }
{
    for (i, id) in ids.iter().enumerate() {
        let place = place_of(places.len(), *id);
        places[place] = (i + 1) as u16;
    }
}

// The number of the block that an id's place tells, where it tells one with this id.
fn placed(ids: &[u32], places: &[u16], id: u32) -> Option<usize>
    requires { 16 ≤ length places.now }
    ensures { MatchOption result (IsPlaced ids.now places.now id → ⊥) (λ k. IsPlaced ids.now places.now id × (k + 1 ≡ told_at places.now id)) }
{
    let told = usize::from(places[place_of(places.len(), id)]);
    if told == 0 || ids.len() < told {
        return None;
    }
    let block_id = ids[told - 1];
    if block_id == id {
        return Some(told - 1);
    }
    None
}

// Whether each block's id is told by its place.
pub(crate) fn all_placed(ids: &[u32], places: &[u16]) -> bool
    requires { 16 ≤ length places.now }
    ensures { IsTrue result → (i : ℕ) → i < length ids.now → IsPlaced ids.now places.now (get_or ids.now i 0) }
{
    ids.iter().all(|id| placed(ids, places, *id).is_some())
}

// How many keys, which rise, are below a bound. A loop of its own: with `partition_point` linking takes up to a third longer.
fn below(keys: &[u64], bound: u64) -> usize
    requires { IsNonDecreasing keys.now }
    ensures bound { result ≤ length keys.now }
    ensures cut { IsPartitionPoint (λ y. y < bound) (λ y. bound ≤ y) keys.now result }
{
    let mut low = 0;
    let mut high = keys.len();
    while low < high {
        let mid = low + (high - low) / 2;
        if keys[mid] < bound {
            low = mid + 1;
        } else {
            high = mid;
        }
    }
    low
}

// Blocks that are found by their ids: an id means the last block that has it.
// There are keys only where some block's id is not told by its place.
#[derive(Drop)]
pub(crate) struct Blocks<'a> {
    pub(crate) ids: &'a [u32],
    pub(crate) keys: &'a [u64],
    pub(crate) places: &'a [u16],
    ghost few: { length ids.now ≤ 1024 },
    ghost room: { 16 ≤ length places.now },
    ghost puts: { Put (length ids.now) ids.now places.now },
    ghost unsorted: { length keys.now ≡ 0 → (i : ℕ) → i < length ids.now → IsPlaced ids.now places.now (get_or ids.now i 0) },
    ghost sorts: { 0 < length keys.now → keys.now ≡ sorted (keys_from 0 ids.now) },
}

impl<'a> Blocks<'a> {
    // The number of the last block that has an id which its place does not tell, by the last key below the next id's; 1,024 for none.
    fn search(&self, id: u32) -> u32
        requires { IsPlaced self.now.ids.now self.now.places.now id → ⊥ }
        ensures { result ≡ number_from 0 self.now.ids.now id }
    {
        let (ids, keys) = (self.ids, self.keys);
        let past = below(keys, u64::from(id) * 1024 + 1024);
        if past == 0 {
            return 1024;
        }
        let number = (keys[past - 1] % 1024) as usize;
        if ids[number] == id {
            return number as u32;
        }
        1024
    }

    // The number of the last block that has an id, 1,024 for none.
    pub(crate) fn find(&self, id: u32) -> u32
        ensures { result ≡ number_from 0 self.now.ids.now id }
    {
        match placed(self.ids, self.places, id) {
            Some(number) => number as u32,
            None => self.search(id),
        }
    }

    // Each target becomes the number of the block it means.
    pub(crate) fn put_numbers(&self, targets: &mut [u32])
        ensures { targets.new ≡ numbers self.now.ids.now targets.old }
    {
        for target in targets.iter_mut() {
            *target = self.find(*target);
        }
    }

    // A block is emitted where the last block with its id is marked.
    pub(crate) fn put_flags(&self, marks: &[bool], emitted: &mut [u8])
        requires { (length self.now.ids.now ≤ length marks.now) × (length emitted.old ≡ length self.now.ids.now) }
        ensures { (i : ℕ) → i < length self.now.ids.now → get_or emitted.new i 0 ≡ pick (get_or marks.now (number_from 0 self.now.ids.now (get_or self.now.ids.now i 0)) false) 1 0 }
    {
        for (i, id) in self.ids.iter().enumerate() {
            let last = self.find(*id) as usize;
            emitted[i] = u8::from(marks[last]);
        }
    }
}
