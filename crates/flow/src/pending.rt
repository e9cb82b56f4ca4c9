// Numbers of blocks that are still to be looked at: the last one put in is the first one taken.
ghost use Rattle.std.specs.Prelude.{◌≡◌, ℕ, ◌<◌, ◌≤◌, List, [], ◌∷◌, ◌++◌, length, take, IfNone, option_to_list};

use std::marker::Model;

#[derive(Drop)]
pub(crate) struct Pending<const ROOM: usize> {
    numbers: [u32; ROOM],
    len: usize,
}

impl<const ROOM: usize> Model for Pending<ROOM> {
    ghost Value = { List ℕ };

    ghost view = { λ p. take p.len p.numbers };

    ghost invariant = { λ p. p.len ≤ ROOM };
}

impl<const ROOM: usize> Pending<ROOM> {
    pub(crate) fn new() -> Self
        ensures { result ≡ [] }
    {
        Pending {
            numbers: [0; ROOM],
            len: 0,
        }
    }

    pub(crate) fn push(&mut self, number: u32)
        requires { length self.old < ROOM }
        ensures { self.new ≡ self.old ++ number ∷ [] }
    {
        self.numbers[self.len] = number;
        self.len += 1;
    }

    pub(crate) fn pop(&mut self) -> Option<u32>
        ensures items { self.old ≡ self.new ++ option_to_list result }
        ensures last { IfNone result (self.old ≡ []) }
    {
        if self.len == 0 {
            return None;
        }
        self.len -= 1;
        Some(self.numbers[self.len])
    }
}
