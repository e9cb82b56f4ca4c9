// An operand's nine bytes, read and written, and the bytes of operands one after the other.
#![tactic(auto)]

ghost use Rattle.std.specs.Prelude.{◌≡◌, ◌+◌, ◌*◌, ◌≤◌, length};
ghost use Rattle.wire.specs.Le.{store};
ghost use Rattle.ir.specs.Operands.{list_of};
ghost use Rattle.ir.specs.declared.operands.Operands.TheVariants.{Zero};
ghost use Rattle.operand.specs.Operand.{operand_at, operands_at, is_operand, are_operands, operand_in, operand_bytes, operands_bytes};

use ir::operands::Operands;
use ir::{Operand, operands};
use wire::lies;

// ---- read

// The operand in the nine bytes at i.
#[tactic(auto, using(crate::proofs::OperandIn::operand_read), unfolding(crate::specs::Operand::is_operand))]
pub fn operand_at(s: &[u8], i: usize) -> Option<Operand>
    ensures { result ≡ operand_at s.now i }
{
    if is_operand(s, i) {
        return Some(operand_in(s, i));
    }
    None
}

// The k operands from i on.
#[tactic(auto, using(crate::proofs::OperandList::operand_room, crate::proofs::OperandList::one_broken, crate::proofs::OperandList::one_more_lem), unfolding(crate::specs::Operand::operands_at))]
pub fn operands_at(s: &[u8], i: usize, k: u8) -> Option<Operands>
    ensures { result ≡ operands_at Zero s.now i k }
{
    let mut list = Operands::Zero;
    let mut at = i;
    for _ in 0..k {
        list = operands::push(list, operand_at(s, at)?);
        at += 9;
    }
    Some(list)
}

// ---- tested

// Whether the nine bytes at i are an operand's.
#[tactic(auto, using(std::proofs::lemmas::Bool::Decides::nat_tests), unfolding(crate::specs::Operand::operand_at, crate::specs::Operand::is_operand))]
pub fn is_operand(s: &[u8], i: usize) -> bool
    ensures { result ≡ is_operand (operand_at s.now i) }
{
    if lies(i, 9, s.len()) {
        let tag = s[i];
        if tag == 0 {
            return wire::get_u32(s, i + 5) == 0;
        }
        return tag == 1;
    }
    false
}

// Whether the bytes from i on are those of k operands.
#[tactic(auto, using(crate::proofs::OperandIn::whole_operand, crate::proofs::OperandIn::are_more, crate::proofs::OperandIn::are_broken), unfolding(crate::specs::Operand::operands_at, crate::specs::Operand::are_operands))]
pub fn are_operands(s: &[u8], i: usize, k: u8) -> bool
    ensures { result ≡ are_operands (operands_at Zero s.now i k) }
{
    let mut at = i;
    for _ in 0..k {
        if !is_operand(s, at) {
            return false;
        }
        at += 9;
    }
    true
}

// ---- taken from bytes that are known to be operands'

// The operand at i: tag 1 is an immediate's.
#[tactic(auto, using(std::proofs::lemmas::Bool::Decides::nat_tests, crate::proofs::OperandIn::operand_out), unfolding(crate::specs::Operand::operand_in))]
pub fn operand_in(s: &[u8], i: usize) -> Operand
    ensures { result ≡ operand_in s.now i }
{
    if i < s.len() {
        if s[i] == 1 {
            return Operand::Immediate(wire::get_i64(s, i + 1));
        }
        return Operand::Var(wire::get_u32(s, i + 1));
    }
    Operand::Var(0)
}

// ---- written

#[tactic(auto, using(crate::proofs::OperandBytes::operand_length, wire::proofs::Store::store_out))]
pub fn put_operand(b: &mut [u8], at: usize, o: Operand)
    ensures { b.new ≡ store b.old at (operand_bytes o) }
{
    if lies(at, 9, b.len()) {
        match o {
            Operand::Var(v) => {
                wire::put_u8(b, at, 0);
                wire::put_u32(b, at + 1, v);
                wire::put_u32(b, at + 5, 0);
            }
            Operand::Immediate(z) => {
                wire::put_u8(b, at, 1);
                wire::put_i64(b, at + 1, z);
            }
        }
    }
}

// The operands, where the caller has found room for them.
#[tactic(auto, using(crate::proofs::OperandBytes::first_counted, crate::proofs::OperandBytes::operand_step, crate::proofs::OperandBytes::operand_end))]
fn set_operands(b: &mut [u8], at: usize, list: Operands)
    requires { at + 9 * length (list_of list) ≤ length b.old }
    ensures { b.new ≡ store b.old at (operands_bytes (list_of list)) }
{
    let mut left = list;
    let mut i = at;
    while let Some(o) = operands::first(left) {
        put_operand(b, i, o);
        left = operands::rest(left);
        i += 9;
    }
}

#[tactic(auto, using(crate::proofs::OperandBytes::operands_length, wire::proofs::Store::store_out))]
pub fn put_operands(b: &mut [u8], at: usize, list: Operands)
    ensures { b.new ≡ store b.old at (operands_bytes (list_of list)) }
{
    if lies(at, 9 * (operands::count(list) as usize), b.len()) {
        set_operands(b, at, list);
    }
}
