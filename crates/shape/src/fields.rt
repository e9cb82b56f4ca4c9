// What an instruction uses, by its form. The wide form's source and immediate belong to rule 32, so count as used here.
ghost use Rattle.std.specs.Prelude.{◌≡◌, ◌<◌};
ghost use Rattle.insn.specs.Rfc.{width};
ghost use Rattle.shape.specs.Fields.{uses};

use insn::form::{Form, Size};

// Which fields are used, whether the destination is written, and whether it jumps.
#[derive(Drop)]
pub(crate) struct Used {
    pub(crate) dst: bool,
    pub(crate) src: bool,
    pub(crate) off: bool,
    pub(crate) imm: bool,
    pub(crate) writes: bool,
    pub(crate) jumps: bool,
}

const NOTHING: Used = Used {
    dst: false,
    src: false,
    off: false,
    imm: false,
    writes: false,
    jumps: false,
};

#[tactic(auto, unfolding(crate::specs::Fields::uses))]
pub(crate) fn uses(f: Form) -> Used
    ensures dst { result.dst ≡ (uses f).dst }
    ensures src { result.src ≡ (uses f).src }
    ensures off { result.off ≡ (uses f).off }
    ensures imm { result.imm ≡ (uses f).imm }
    ensures writes { result.writes ≡ (uses f).writes }
    ensures jumps { result.jumps ≡ (uses f).jumps }
{
    match f {
        Form::NoForm => Used {
            dst: true,
            src: true,
            off: true,
            imm: true,
            ..NOTHING
        },
        Form::WideLoad => Used {
            dst: true,
            src: true,
            imm: true,
            writes: true,
            ..NOTHING
        },
        Form::Ldx(_) => Used {
            dst: true,
            src: true,
            off: true,
            writes: true,
            ..NOTHING
        },
        Form::Stx(_) => Used {
            dst: true,
            src: true,
            off: true,
            ..NOTHING
        },
        Form::AluImm(_) | Form::MovImm => Used {
            dst: true,
            imm: true,
            writes: true,
            ..NOTHING
        },
        Form::AluReg(_) | Form::MovReg => Used {
            dst: true,
            src: true,
            writes: true,
            ..NOTHING
        },
        Form::Ja => Used {
            off: true,
            jumps: true,
            ..NOTHING
        },
        Form::JeqImm | Form::JneImm => Used {
            dst: true,
            off: true,
            imm: true,
            jumps: true,
            ..NOTHING
        },
        Form::Call => Used {
            imm: true,
            ..NOTHING
        },
        Form::Exit => NOTHING,
    }
}

// The bytes of a load or store.
#[tactic(auto, unfolding(insn::specs::Rfc::width))]
pub(crate) fn bytes_of(s: Size) -> u16
    ensures { (result ≡ width s) × (0 < result) }
{
    match s {
        Size::W => 4,
        Size::H => 2,
        Size::B => 1,
        Size::Dw => 8,
    }
}
