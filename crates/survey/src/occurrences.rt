// The variables that a record names, read from its bytes and put among those that were collected.
ghost use Rattle.std.specs.Prelude.{◌≡◌, ◌+◌, ◌≤◌, ◌<◌, take};
ghost use Rattle.frame.specs.Hint.{index_by};
ghost use Rattle.operand.specs.Operand.{operand_in, operands_in};
ghost use Rattle.survey.specs.Occurrences.{of_operand, of_operands};
ghost use Rattle.survey.specs.Inner.{Holds, Takes, of_instruction_in, of_terminator_in};

use frame::{Frame, hint};
use ir::Operand;

// How many variables the lent array holds, 57 once one more came; and then the place of the record that brought it.
#[derive(Drop)]
pub struct Tally {
    pub count: usize,
    pub place: usize,
}

// Where v stands among the first n, or n for nowhere.
fn index(variables: &[u32; 56], hints: &[u8; 256], n: usize, v: u32) -> usize
    requires { n ≤ 56 }
    ensures { result ≡ index_by (take n variables.now) hints.now v }
{
    let all = &variables[..];
    let frame = Frame {
        variables: &all[0..n],
        hints,
    };
    frame.index(v)
}

// A table for the first n: nothing rests on what it guesses.
fn guess_anew(variables: &[u32; 56], hints: &mut [u8; 256], n: usize)
    requires { n ≤ 56 }
{
    let all = &variables[..];
    hint::put_hints(&all[0..n], hints);
}

// A variable put among them, for which there may be no room. It stands apart because it is rare.
fn insert(
    variables: &mut [u32; 56],
    hints: &mut [u8; 256],
    tally: Tally,
    place: usize,
    v: u32,
) -> Tally
    requires holds { Holds tally variables.old }
    requires count_bound { tally.count ≤ 56 }
    ensures { Takes tally variables.old (of_operand place (Operand.Var v)) result variables.new }
{
    match frame::insert(variables, tally.count, v) {
        Some(more) => {
            guess_anew(variables, hints, more);
            Tally {
                count: more,
                place: tally.place,
            }
        }
        None => Tally {
            count: 57,
            place: place,
        },
    }
}

// Once a 57th variable came, nothing is inserted any more. What is there already is found by its guessed index.
fn with_variable(
    variables: &mut [u32; 56],
    hints: &mut [u8; 256],
    tally: Tally,
    place: usize,
    v: u32,
) -> Tally
    requires { Holds tally variables.old }
    ensures { Takes tally variables.old (of_operand place (Operand.Var v)) result variables.new }
{
    if 56 < tally.count {
        return tally;
    }
    if index(variables, hints, tally.count, v) < tally.count {
        return tally;
    }
    insert(variables, hints, tally, place, v)
}

// The operand at byte i.
fn with_operand(
    s: &[u8],
    variables: &mut [u32; 56],
    hints: &mut [u8; 256],
    tally: Tally,
    place: usize,
    i: usize,
) -> Tally
    requires { Holds tally variables.old }
    ensures { Takes tally variables.old (of_operand place (operand_in s.now i)) result variables.new }
{
    let Operand::Var(v) = operand::operand_in(s, i) else {
        return tally;
    };
    with_variable(variables, hints, tally, place, v)
}

// The operands of the instruction at a place, nine bytes each.
fn with_operands(
    s: &[u8],
    variables: &mut [u32; 56],
    hints: &mut [u8; 256],
    tally: Tally,
    place: usize,
    count: u8,
) -> Tally
    requires holds { Holds tally variables.old }
    requires place_bound { place < 4294967296 }
    ensures { Takes tally variables.old (of_operands place (operands_in s.now (place + 20) count)) result variables.new }
{
    let mut counted = tally;
    let mut i = place + 20;
    for _ in 0..count {
        counted = with_operand(s, variables, hints, counted, place, i);
        i += 9;
    }
    counted
}

// The result, which every instruction has, a Store too; then the operands.
pub(crate) fn with_instruction(
    s: &[u8],
    variables: &mut [u32; 56],
    hints: &mut [u8; 256],
    tally: Tally,
    place: usize,
) -> Tally
    requires holds { Holds tally variables.old }
    requires place_bound { place < 4294967296 }
    ensures { Takes tally variables.old (of_instruction_in s.now place) result variables.new }
{
    let result = wire::get_u32(s, place + 4);
    let counted = with_variable(variables, hints, tally, place, result);
    let count = wire::get_u8(s, place + 10);
    with_operands(s, variables, hints, counted, place, count)
}

// A jump, form 1, names none.
pub(crate) fn with_terminator(
    s: &[u8],
    variables: &mut [u32; 56],
    hints: &mut [u8; 256],
    tally: Tally,
    place: usize,
) -> Tally
    requires holds { Holds tally variables.old }
    requires place_bound { place < 4294967296 }
    ensures { Takes tally variables.old (of_terminator_in s.now place) result variables.new }
{
    if wire::get_u8(s, place + 4) == 1 {
        return tally;
    }
    with_operand(s, variables, hints, tally, place, place + 5)
}
