// An instruction's operands: none to eight, by value. No array with a count: of these, two values that are the same list are the same value.
ghost use Rattle.std.specs.Prelude.{◌≡◌, length};
ghost use Rattle.ir.specs.Operands.{list_of, first_of, rest_of, pushed};

use crate::Operand;

#[derive(Clone, Copy)]
pub enum Operands {
    Zero,
    One(Operand),
    Two(Operand, Operand),
    Three(Operand, Operand, Operand),
    Four(Operand, Operand, Operand, Operand),
    Five(Operand, Operand, Operand, Operand, Operand),
    Six(Operand, Operand, Operand, Operand, Operand, Operand),
    Seven(Operand, Operand, Operand, Operand, Operand, Operand, Operand),
    Eight(Operand, Operand, Operand, Operand, Operand, Operand, Operand, Operand),
}

#[tactic(auto, unfolding(crate::specs::Operands::list_of))]
pub fn count(list: Operands) -> u8
    ensures { result ≡ length (list_of list) }
{
    match list {
        Operands::Zero => 0,
        Operands::One(_) => 1,
        Operands::Two(_, _) => 2,
        Operands::Three(_, _, _) => 3,
        Operands::Four(_, _, _, _) => 4,
        Operands::Five(_, _, _, _, _) => 5,
        Operands::Six(_, _, _, _, _, _) => 6,
        Operands::Seven(_, _, _, _, _, _, _) => 7,
        Operands::Eight(_, _, _, _, _, _, _, _) => 8,
    }
}

// The operands with one more after them; eight have no room for it.
#[tactic(auto, unfolding(crate::specs::Operands::pushed))]
pub fn push(list: Operands, o: Operand) -> Operands
    ensures { result ≡ pushed list o }
{
    match list {
        Operands::Zero => Operands::One(o),
        Operands::One(a) => Operands::Two(a, o),
        Operands::Two(a, b) => Operands::Three(a, b, o),
        Operands::Three(a, b, c) => Operands::Four(a, b, c, o),
        Operands::Four(a, b, c, d) => Operands::Five(a, b, c, d, o),
        Operands::Five(a, b, c, d, e) => Operands::Six(a, b, c, d, e, o),
        Operands::Six(a, b, c, d, e, f) => Operands::Seven(a, b, c, d, e, f, o),
        Operands::Seven(a, b, c, d, e, f, g) => Operands::Eight(a, b, c, d, e, f, g, o),
        Operands::Eight(_, _, _, _, _, _, _, _) => list,
    }
}

#[tactic(auto, unfolding(crate::specs::Operands::first_of))]
pub fn first(list: Operands) -> Option<Operand>
    ensures { result ≡ first_of list }
{
    match list {
        Operands::Zero => None,
        Operands::One(a) => Some(a),
        Operands::Two(a, _) => Some(a),
        Operands::Three(a, _, _) => Some(a),
        Operands::Four(a, _, _, _) => Some(a),
        Operands::Five(a, _, _, _, _) => Some(a),
        Operands::Six(a, _, _, _, _, _) => Some(a),
        Operands::Seven(a, _, _, _, _, _, _) => Some(a),
        Operands::Eight(a, _, _, _, _, _, _, _) => Some(a),
    }
}

// The operands after the first.
#[tactic(auto, unfolding(crate::specs::Operands::rest_of))]
pub fn rest(list: Operands) -> Operands
    ensures { result ≡ rest_of list }
{
    match list {
        Operands::Zero => Operands::Zero,
        Operands::One(_) => Operands::Zero,
        Operands::Two(_, b) => Operands::One(b),
        Operands::Three(_, b, c) => Operands::Two(b, c),
        Operands::Four(_, b, c, d) => Operands::Three(b, c, d),
        Operands::Five(_, b, c, d, e) => Operands::Four(b, c, d, e),
        Operands::Six(_, b, c, d, e, f) => Operands::Five(b, c, d, e, f),
        Operands::Seven(_, b, c, d, e, f, g) => Operands::Six(b, c, d, e, f, g),
        Operands::Eight(_, b, c, d, e, f, g, h) => Operands::Seven(b, c, d, e, f, g, h),
    }
}
