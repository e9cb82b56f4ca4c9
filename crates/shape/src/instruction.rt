// The shape rules of one instruction, and the first fault of a code. Tests are joined by `&` and `|` where `&&` and `||` were slower.
ghost use Rattle.std.specs.Prelude.{◌≡◌, ◌<◌};
ghost use Rattle.insn.specs.Helper.{helper_of, is_helper};
ghost use Rattle.insn.specs.Rfc.{width};
ghost use Rattle.shape.specs.Code.{at};
ghost use Rattle.shape.specs.Shape.{all_zero, known as known_of, registers_ok, unused_zero, in_frame, access_ok, target, is_start, first_broken, shape_at};
ghost use Rattle.shape.specs.Shapes.{shapes};
ghost use Rattle.shape.specs.Fields.{uses, wide};

use crate::fields::{bytes_of, uses};
use crate::set::{StartSet, next};
use crate::slot::{instruction_at, target};
use crate::{Shape, Shapes};
use insn::Insn;
use insn::form::{Form, Size, form_of};
use insn::helper::helper_of;
use wire::number::SlotNumber;

// ---- rule 32

#[tactic(auto, unfolding(insn::specs::Helper::is_helper))]
fn is_helper(imm: i32) -> bool
    ensures { result ≡ is_helper (helper_of imm) }
{
    match helper_of(imm) {
        None => false,
        Some(_) => true,
    }
}

#[tactic(auto, using(crate::proofs::Signs::zero_bits), unfolding(crate::specs::Shape::all_zero))]
fn all_zero(i: Insn) -> bool
    ensures { result ≡ all_zero i }
{
    (i.code == 0) & ((i.dst == 0) & ((i.src == 0) & ((i.off == 0) & (i.imm == 0))))
}

#[tactic(auto, using(crate::proofs::Signs::zero_bits), unfolding(crate::specs::Shape::known, crate::specs::Code::slots))]
fn wide_ok(code: &[u8], s: usize, i: Insn) -> bool
    requires s_bound { s < 131072 }
    requires i_value { i ≡ at code.now s }
    ensures { result ≡ known_of code.now s wide }
{
    s + 1 < code.len() / 8
        && i.src == 1
        && i.imm == 0
        && all_zero(instruction_at(code, SlotNumber(s as u32 + 1)))
}

#[tactic(auto, unfolding(crate::specs::Shape::known, crate::specs::Fields::uses))]
fn known(code: &[u8], s: usize, i: Insn, f: Form) -> bool
    requires s_bound { s < 131072 }
    requires i_value { i ≡ at code.now s }
    ensures { result ≡ known_of code.now s (uses f).kind }
{
    match f {
        Form::NoForm => false,
        Form::WideLoad => wide_ok(code, s, i),
        Form::Call => is_helper(i.imm),
        _ => true,
    }
}

// ---- rule 33

#[tactic(auto, unfolding(crate::specs::Shape::registers_ok))]
fn registers_ok(i: Insn, f: Form) -> bool
    ensures { result ≡ registers_ok i (uses f) }
{
    let used = uses(f);
    (!used.dst | (i.dst <= 10)) & ((!used.src | (i.src <= 10)) & (!used.writes | (i.dst != 10)))
}

// ---- rule 34

#[tactic(auto, using(crate::proofs::Signs::zero_bits), unfolding(crate::specs::Shape::unused_zero))]
fn unused_zero(i: Insn, f: Form) -> bool
    ensures { result ≡ unused_zero i (uses f) }
{
    let used = uses(f);
    (used.dst | (i.dst == 0))
        & ((used.src | (i.src == 0)) & ((used.off | (i.off == 0)) & (used.imm | (i.imm == 0))))
}

// ---- rule 35

#[tactic(auto, unfolding(crate::specs::Shape::in_frame))]
fn in_frame(off: i16, s: Size) -> bool
    ensures { result ≡ in_frame off (width s) }
{
    if off < 0 {
        let w = bytes_of(s);
        let below = off.unsigned_abs();
        (below <= 512) & ((w <= below) & (below % w == 0))
    } else {
        false // at R10 or above
    }
}

#[tactic(auto, unfolding(crate::specs::Shape::access_ok, crate::specs::Fields::uses))]
fn access_ok(i: Insn, f: Form) -> bool
    ensures { result ≡ access_ok i (uses f).kind }
{
    match f {
        Form::Ldx(s) => (i.src != 10) | in_frame(i.off, s),
        Form::Stx(s) => (i.dst != 10) | in_frame(i.off, s),
        _ => true,
    }
}

// ---- rule 36

#[tactic(auto, unfolding(crate::specs::Shape::is_start, crate::specs::Shape::landing))]
fn target_ok(starts: &StartSet, s: usize, off: i16) -> bool
    requires { s < 131072 }
    ensures { result ≡ is_start starts.now.code.now (target s off) }
{
    match target(SlotNumber(s as u32), off) {
        None => false,
        Some(t) => starts.contains(t),
    }
}

// ---- one instruction, and all

// The first rule that does not hold.
#[tactic(auto, unfolding(crate::specs::Shape::first_broken))]
fn first_broken(
    known: bool,
    registers: bool,
    unused: bool,
    access: bool,
    target: bool,
) -> Result<(), Shape>
    ensures { result ≡ first_broken known registers unused access target }
{
    if !known {
        return Err(Shape::Unknown);
    }
    if !registers {
        return Err(Shape::Register);
    }
    if !unused {
        return Err(Shape::Unused);
    }
    if !access {
        return Err(Shape::Access);
    }
    if !target {
        return Err(Shape::Target);
    }
    Ok(())
}

#[tactic(auto, unfolding(crate::specs::Shape::shape_at, crate::specs::Shape::shape_of, crate::specs::Code::form_at))]
fn shape_at(starts: &StartSet, s: usize) -> Result<(), Shape>
    requires { s < 131072 }
    ensures { result ≡ shape_at starts.now.code.now s }
{
    let code = starts.code;
    let i = instruction_at(code, SlotNumber(s as u32));
    let f = form_of(i.code);
    first_broken(
        known(code, s, i, f),
        registers_ok(i, f),
        unused_zero(i, f),
        access_ok(i, f),
        !uses(f).jumps | target_ok(starts, s, i.off),
    )
}

#[tactic(auto, using(crate::proofs::Starts::after_more), unfolding(crate::specs::Code::slots))]
pub(crate) fn first_fault(starts: &StartSet) -> Result<(), Shapes>
    ensures { result ≡ shapes starts.now.code.now }
{
    let n = starts.code.len() / 8;
    let mut s = 0;
    // no `for`: a step is as long as the instruction
    while s < n {
        match shape_at(starts, s) {
            Ok(()) => s = next(starts.code, s),
            Err(shape) => return Err(Shapes::Faulty(s, shape)),
        }
    }
    Ok(())
}
