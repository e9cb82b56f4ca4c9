// Where the code's instructions start: a set of slots, a bit for each.
ghost use Rattle.std.specs.Prelude.{◌≡◌, ◌+◌, ◌≤◌, ◌<◌, ltb, replicate};
ghost use Rattle.wire.specs.Pick.{both};
ghost use Rattle.shape.specs.Code.{slots, start};
ghost use Rattle.shape.specs.Set.{after, Starts};

use crate::slot::is_wide;
use wire::number::SlotNumber;

// A code, and the set of the slots where its instructions start.
#[derive(Drop)]
pub(crate) struct StartSet<'a> {
    pub(crate) code: &'a [u8],
    pub(crate) words: &'a [u64; 2048],
    ghost few: { slots code.now ≤ 131072 },
    ghost exact: { Starts code.now words.now },
}

impl<'a> StartSet<'a> {
    #[tactic(auto, unfolding(crate::specs::Code::slots, crate::specs::Set::member, wire::specs::Bit::bit))]
    pub(crate) fn contains(&self, slot: usize) -> bool
        ensures { result ≡ both (ltb slot (slots self.now.code.now)) (start self.now.code.now slot) }
    {
        slot < self.code.len() / 8 && (self.words[slot / 64] >> (slot % 64)) % 2 == 1
    }
}

// The start after the start s.
#[tactic(auto, unfolding(crate::specs::Set::after))]
pub(crate) fn next(code: &[u8], s: usize) -> usize
    requires { s < 131072 }
    ensures { result ≡ after code.now s }
{
    if is_wide(code, SlotNumber(s as u32)) {
        s + 2
    } else {
        s + 1
    }
}

// Puts each start into the empty set.
#[tactic(auto, using(crate::proofs::Starts::after_more), unfolding(crate::specs::Code::slots))]
pub(crate) fn fill(code: &[u8], words: &mut [u64; 2048])
    requires code_bound { slots code.now ≤ 131072 }
    requires words_value { words.old ≡ replicate 2048 0 }
    ensures { Starts code.now words.new }
{
    let n = code.len() / 8;
    let mut s = 0;
    // no `for`: a step is as long as the instruction
    while s < n {
        words[s / 64] |= 1 << (s % 64);
        s = next(code, s);
    }
}
