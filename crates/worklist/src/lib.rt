// A set of slots below 131,072 in three levels of words: a bit for each slot, one for each word of those, one for each word of these.
#![tactic(auto)]

ghost use Rattle.std.specs.Prelude.{◌≡◌, ◌<◌, ◌≤◌, ◌^◌, replicate};
ghost use Rattle.worklist.specs.Set.{marked_low, marked_mid, marked_top, lowest_bit, lead, taken_low, taken_mid, taken_top, taken};

// The three levels; a bit of an upper one may say too much, never too little. The top word stands first: behind the arrays it was slower.
#[derive(Drop)]
pub struct Worklist {
    pub top: u64,
    pub mid: [u64; 32],
    pub low: [u64; 2048],
}

fn lowest(x: u64) -> usize
    requires { 0 < x }
    ensures value { result ≡ lowest_bit x }
    ensures upper_bound { (result < 64) × (2 ^ result ≤ x) }
{
    x.trailing_zeros() as usize
}

impl Worklist {
    // The empty set.
    pub fn new() -> Worklist
        ensures low { result.low ≡ replicate 2048 0 }
        ensures mid { result.mid ≡ replicate 32 0 }
        ensures top { result.top ≡ 0 }
    {
        Worklist {
            top: 0,
            mid: [0; 32],
            low: [0; 2048],
        }
    }

    // Puts a slot into the set.
    pub fn mark(&mut self, slot: usize)
        ensures low { self.new.low ≡ marked_low self.old.low slot }
        ensures mid { self.new.mid ≡ marked_mid self.old.mid slot }
        ensures top { self.new.top ≡ marked_top self.old.top slot }
    {
        if slot < 131072 {
            let j = slot / 64;
            let i = j / 64;
            self.low[j] |= 1 << (slot % 64);
            self.mid[i] |= 1 << (j % 64);
            self.top |= 1 << i;
        }
    }

    // Takes a slot out, or a bit that stands above a word that is 0.
    pub fn take(&mut self) -> Option<usize>
        ensures value { result ≡ taken (lead self.old.low self.old.mid self.old.top) }
        ensures low { self.new.low ≡ taken_low self.old.low (lead self.old.low self.old.mid self.old.top) }
        ensures mid { self.new.mid ≡ taken_mid self.old.mid (lead self.old.low self.old.mid self.old.top) }
        ensures top { self.new.top ≡ taken_top self.old.top (lead self.old.low self.old.mid self.old.top) }
    {
        if self.top == 0 {
            return None;
        }
        let i = lowest(self.top);
        // a bit above the 32 words is no slot's
        if 32 <= i {
            self.top = 0;
            return None;
        }
        let mid = self.mid[i];
        if mid == 0 {
            self.top -= 1 << i;
            return None;
        }
        let k = lowest(mid);
        let j = i * 64 + k;
        let low = self.low[j];
        if low == 0 {
            self.mid[i] = mid - (1 << k);
            return None;
        }
        let b = lowest(low);
        self.low[j] = low - (1 << b);
        Some(j * 64 + b)
    }
}
