// What the analysis takes from an instruction.
ghost use Rattle.std.specs.Prelude.{◌≡◌, ◌<◌};
ghost use Rattle.insn.specs.Helper.{helper_of, arguments};
ghost use Rattle.paths.specs.Registers.{reads, argument};
ghost use Rattle.paths.specs.Mask.{mask, only, flow_of, node_of, node_at};

use insn::Insn;
use insn::form::Form;
use insn::helper::helper_of;
use shape::slot::{instruction_at, target};
use wire::number::SlotNumber;

// The slot to which a path goes on and the one to which it jumps, if any; the mask that is kept, and what is put to it.
#[derive(Drop)]
pub struct Node {
    pub on: Option<usize>,
    pub to: Option<usize>,
    pub keep: u16,
    pub made: u16,
}

// What an instruction does to a path: ends it, goes on with the registers as they are or with one more, calls, jumps, or both goes on and jumps.
#[derive(Drop)]
pub enum Flow {
    Stops,
    Keeps,
    Writes,
    WritesWide,
    Calls,
    Jumps,
    Branches,
}

fn register(x: u8) -> u16
    ensures { result ≡ mask (only x) 11 }
{
    if x < 11 { 1 << x } else { 0 }
}

#[tactic(auto, unfolding(crate::specs::Mask::flow_of))]
fn flow_of(f: Form) -> Flow
    ensures { result ≡ flow_of f }
{
    match f {
        Form::NoForm | Form::Exit => Flow::Stops,
        Form::Stx(_) => Flow::Keeps,
        Form::Ldx(_) | Form::AluImm(_) | Form::AluReg(_) | Form::MovImm | Form::MovReg =>
            Flow::Writes,
        Form::WideLoad => Flow::WritesWide,
        Form::Call => Flow::Calls,
        Form::Ja => Flow::Jumps,
        Form::JeqImm | Form::JneImm => Flow::Branches,
    }
}

#[tactic(auto, unfolding(crate::specs::Mask::node_of))]
fn node_of(s: usize, i: Insn, e: Flow) -> Node
    requires { s < 131072 }
    ensures { result ≡ node_of s i e }
{
    match e {
        Flow::Stops => Node {
            on: None,
            to: None,
            keep: 4095,
            made: 0,
        },
        Flow::Keeps => Node {
            on: Some(s + 1),
            to: None,
            keep: 4095,
            made: 0,
        },
        Flow::Writes => Node {
            on: Some(s + 1),
            to: None,
            keep: 4095,
            made: register(i.dst),
        },
        Flow::WritesWide => Node {
            on: Some(s + 2),
            to: None,
            keep: 4095,
            made: register(i.dst),
        },
        Flow::Calls => Node {
            on: Some(s + 1),
            to: None,
            keep: 4032,
            made: 1,
        },
        Flow::Jumps => Node {
            on: None,
            to: target(SlotNumber(s as u32), i.off),
            keep: 4095,
            made: 0,
        },
        Flow::Branches => Node {
            on: Some(s + 1),
            to: target(SlotNumber(s as u32), i.off),
            keep: 4095,
            made: 0,
        },
    }
}

#[tactic(auto, unfolding(crate::specs::Mask::node_at, shape::specs::Code::form_at))]
pub(crate) fn node_at(code: &[u8], s: usize) -> Node
    requires { s < 131072 }
    ensures { result ≡ node_at code.now s }
{
    let i = instruction_at(code, SlotNumber(s as u32));
    node_of(s, i, flow_of(insn::form::form_of(i.code)))
}

// The registers that a helper reads.
fn arguments_of(imm: i32) -> u16
    ensures { result ≡ mask (argument (arguments (helper_of imm))) 11 }
{
    match helper_of(imm) {
        None => 0,
        Some(n) => (2u16 << n) - 2,
    }
}

#[tactic(auto, using(crate::proofs::Masks::mask_or), unfolding(crate::specs::Registers::reads, crate::specs::Mask::mask, crate::specs::Mask::only))]
pub(crate) fn reads_of(i: Insn, f: Form) -> u16
    ensures { result ≡ mask (reads f i) 11 }
{
    let dst = register(i.dst);
    let src = register(i.src);
    match f {
        Form::NoForm | Form::WideLoad | Form::MovImm | Form::Ja => 0,
        Form::Ldx(_) | Form::MovReg => src,
        Form::AluImm(_) | Form::JeqImm | Form::JneImm => dst,
        Form::Stx(_) | Form::AluReg(_) => dst | src,
        Form::Call => arguments_of(i.imm),
        Form::Exit => 1,
    }
}
