// The parts of an instruction: whether one is refused, and the slots that it takes.
ghost use Rattle.std.specs.Prelude.{◌≡◌, ◌≤◌};
ghost use Rattle.size.specs.Part.{of_constant, of_operand, address_slots, operate_slots};

use ir::Operand;
use lower::Reason;

// ---- operands

// A constant must lie in i32.
pub fn constant(z: i64) -> Result<(), Reason>
    ensures { result ≡ of_constant z }
{
    if wire::range::fits32(z) {
        return Ok(());
    }
    Err(Reason::Immediate(z))
}

// An operand that is a constant must lie in i32 too.
#[tactic(auto, unfolding(crate::specs::Part::of_operand))]
pub fn judge(a: Operand) -> Result<(), Reason>
    ensures { result ≡ of_operand a }
{
    match a {
        Operand::Var(_) => Ok(()),
        Operand::Immediate(z) => constant(z),
    }
}

// An immediate's address is that of a scratch cell, to which it is stored first.
pub fn address_slots(a: Operand) -> u32
    ensures { (result ≡ address_slots a) × (result ≤ 4) }
{
    match a {
        Operand::Var(_) => 2,
        Operand::Immediate(_) => 4,
    }
}

// Binary's operation: a variable is loaded first.
pub fn operate_slots(b: Operand) -> u32
    ensures { (result ≡ operate_slots b) × (result ≤ 2) }
{
    match b {
        Operand::Var(_) => 2,
        Operand::Immediate(_) => 1,
    }
}
