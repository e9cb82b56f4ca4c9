// The shape of code from anyone: each instruction by itself, and the relocations.
#![tactic(auto)]

mod fields;
mod instruction;
mod pairs;
mod set;
pub mod slot;

ghost use Rattle.std.specs.Prelude.{◌≡◌};
ghost use Rattle.shape.specs.Shapes.{length_ok, shapes, and_relocations, judged};

use set::StartSet;

// The rule that an instruction breaks: 32 to 36.
#[derive(Drop)]
pub enum Shape {
    Unknown,
    Register,
    Unused,
    Access,
    Target,
}

// The first fault of a code and its relocations.
#[derive(Drop)]
pub enum Shapes {
    BadLength,
    Faulty(usize, Shape),
    Relocation(usize),
}

// A length that a code may have.
#[tactic(auto, unfolding(crate::specs::Shapes::length_ok))]
pub fn length_ok(code: &[u8]) -> bool
    ensures { result ≡ length_ok code.now }
{
    let n = code.len();
    n != 0 && n % 8 == 0 && n <= 1048576
}

#[tactic(auto, unfolding(crate::specs::Shapes::and_relocations, crate::specs::Shapes::with_relocations))]
fn judge_with(starts: &StartSet, relocs: &[u32]) -> Result<(), Shapes>
    ensures { result ≡ and_relocations starts.now.code.now relocs.now (shapes starts.now.code.now) }
{
    instruction::first_fault(starts)?;
    match pairs::compared(starts.code, relocs) {
        Ok(()) => Ok(()),
        Err(k) => Err(Shapes::Relocation(k)),
    }
}

#[tactic(auto, using(crate::proofs::Lengths::length_slots), unfolding(crate::specs::Shapes::judged))]
pub fn judge(code: &[u8], relocs: &[u32]) -> Result<(), Shapes>
    ensures { result ≡ judged code.now relocs.now }
{
    if length_ok(code) {
        let mut words = [0; 2048];
        set::fill(code, &mut words);
        let starts = StartSet {
            code,
            words: &words,
        };
        return judge_with(&starts, relocs);
    }
    Err(Shapes::BadLength)
}
