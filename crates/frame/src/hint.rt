// Where a variable stands, guessed: a table of 256 numbers, of which v % 256 picks the one to try. A guess that is wrong costs a search and changes no answer.
ghost use Rattle.std.specs.Prelude.{◌≡◌};
ghost use Rattle.frame.specs.Hint.{index_from, hints_of};
ghost use Rattle.frame.specs.Lent.{index_in, frame_in};

use crate::{cell_by_index, offset};

// The first index of v, or the number of variables for none.
fn find(variables: &[u32], v: u32) -> usize
    ensures { result ≡ index_from 0 variables.now v }
{
    variables
        .iter()
        .position(|x| v == *x)
        .unwrap_or(variables.len())
}

// The sorted variables of a unit, whose cells are its frame, and what guesses where one of them stands.
#[derive(Clone, Copy)]
pub struct Frame<'a> {
    pub variables: &'a [u32],
    pub hints: &'a [u8; 256],
}

impl Frame<'_> {
    // The guess, where v stands there; else the first index of v, or the number of variables for none.
    pub fn index(self, v: u32) -> usize
        ensures { result ≡ index_in self.entry v }
    {
        let variables = self.variables;
        let guess = usize::from(self.hints[(v % 256) as usize]);
        if guess < variables.len() && v == variables[guess] {
            return guess;
        }
        find(variables, v)
    }

    // The cell of v.
    pub fn cell(self, v: u32) -> Option<i16>
        ensures { result ≡ (frame_in self.entry).cell v }
    {
        cell_by_index(self.variables.len(), self.index(v))
    }

    // The offset of scratch j of the ring.
    #[tactic(auto, unfolding(crate::specs::Hint::frame_by, crate::specs::Cell::offset_of))]
    pub fn scratch(self, j: u8) -> i16
        ensures { result ≡ (frame_in self.entry).scratch j }
    {
        offset(self.variables.len() % 64 + (j % 8) as usize)
    }
}

// The index of each variable, where v % 256 looks for it; of two that are looked for in one place, the later.
pub fn put_hints(variables: &[u32], hints: &mut [u8; 256])
    ensures { hints.new ≡ hints_of variables.now hints.old }
{
    for (k, v) in variables.iter().enumerate() {
        hints[(*v % 256) as usize] = (k % 256) as u8;
    }
}
