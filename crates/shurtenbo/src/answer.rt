// The answer of a call, as three numbers.
ghost use Rattle.std.specs.Prelude.{◌≡◌};
ghost use Rattle.shurtenbo.specs.Answer.{done_with, numbers_of, only_number};

use wire::bits64;
use wire::refusal::Refusal;

pub(crate) fn done(answer: &mut [u64; 3], first: u64, second: u64)
    ensures { answer.new ≡ done_with first second }
{
    *answer = [0, first, second];
}

pub(crate) fn refused(answer: &mut [u64; 3], r: Refusal)
    ensures { answer.new ≡ numbers_of r }
{
    *answer = [r.number as u64, r.place as u64, bits64(r.value)];
}

pub(crate) fn only(answer: &mut [u64; 3], number: u64)
    ensures { answer.new ≡ only_number number }
{
    *answer = [number, 0, 0];
}
