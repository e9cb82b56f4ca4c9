// What an instruction asks of its operands, by the fields of its opcode.
#![tactic(auto, unfolding(crate::specs::Asks::helper_asks, crate::specs::Asks::asks_of, crate::specs::Asks::enough, crate::specs::Opcode::opcode_in))]

ghost use Rattle.std.specs.Prelude.{◌≡◌};
ghost use Rattle.opcode.specs.Asks.{helper_asks, asks_of, enough};
ghost use Rattle.opcode.specs.Opcode.{opcode_in};

use crate::Fields;

// Nothing, any number being ignored; a first one, more being ignored; exactly so many.
#[derive(Drop)]
pub enum Asks {
    Nothing,
    First,
    Exactly(u8),
}

fn helper_asks(id: u32) -> Asks
    ensures { result ≡ helper_asks id }
{
    match id {
        5 | 14 | 15 | 35 => Asks::Exactly(0),
        114 | 115 => Asks::Exactly(3),
        _ => Asks::Nothing,
    }
}

// The fields are known to be an opcode's.
pub fn asks_of(f: Fields) -> Asks
    ensures { result ≡ asks_of (opcode_in f) }
{
    match f.code {
        1 => helper_asks(f.number),
        2 => Asks::First,
        3 => Asks::Exactly(2),
        4 => Asks::Nothing,
        5 => Asks::Nothing,
        6 => Asks::First,
        7 => Asks::First,
        8 => Asks::Exactly(2),
        9 => Asks::First,
        10 => Asks::Exactly(2),
        11 => Asks::Nothing,
        12 => Asks::First,
        _ => Asks::First,
    }
}

// Whether so many operands are right.
pub fn enough(a: Asks, count: u8) -> bool
    ensures { result ≡ enough a count }
{
    match a {
        Asks::Nothing => true,
        Asks::First => 1 <= count,
        Asks::Exactly(n) => count == n,
    }
}
