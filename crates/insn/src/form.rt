// Which of the 256 opcode bytes are instructions of this back end, and of which form.
ghost use Rattle.std.specs.Prelude.{◌≡◌};
ghost use Rattle.insn.specs.Form.{form_of};

use ir::BinaryOp;

// The sizes of a load or store, in the order of RFC 9669's size field.
#[derive(Clone, Copy)]
pub enum Size {
    W,
    H,
    B,
    Dw,
}

// `NoForm` and no Option: each rule has a row for it as for the other forms.
#[derive(Clone, Copy)]
pub enum Form {
    NoForm,
    WideLoad,
    Ldx(Size),
    Stx(Size),
    AluImm(BinaryOp),
    AluReg(BinaryOp),
    MovImm,
    MovReg,
    Ja,
    JeqImm,
    JneImm,
    Call,
    Exit,
}

// ---- the forms of the table, each in a word

const NONE: Form = Form::NoForm;

const WIDE: Form = Form::WideLoad;

const LDXW: Form = Form::Ldx(Size::W);

const LDXH: Form = Form::Ldx(Size::H);

const LDXB: Form = Form::Ldx(Size::B);

const LDXD: Form = Form::Ldx(Size::Dw);

const STXW: Form = Form::Stx(Size::W);

const STXH: Form = Form::Stx(Size::H);

const STXB: Form = Form::Stx(Size::B);

const STXD: Form = Form::Stx(Size::Dw);

const ADDK: Form = Form::AluImm(BinaryOp::Add);

const SUBK: Form = Form::AluImm(BinaryOp::Sub);

const MULK: Form = Form::AluImm(BinaryOp::Mul);

const DIVK: Form = Form::AluImm(BinaryOp::Div);

const MODK: Form = Form::AluImm(BinaryOp::Mod);

const SHLK: Form = Form::AluImm(BinaryOp::Shl);

const SHRK: Form = Form::AluImm(BinaryOp::Shr);

const ADDX: Form = Form::AluReg(BinaryOp::Add);

const SUBX: Form = Form::AluReg(BinaryOp::Sub);

const MULX: Form = Form::AluReg(BinaryOp::Mul);

const DIVX: Form = Form::AluReg(BinaryOp::Div);

const MODX: Form = Form::AluReg(BinaryOp::Mod);

const SHLX: Form = Form::AluReg(BinaryOp::Shl);

const SHRX: Form = Form::AluReg(BinaryOp::Shr);

const MOVK: Form = Form::MovImm;

const MOVX: Form = Form::MovReg;

const JUMP: Form = Form::Ja;

const JEQK: Form = Form::JeqImm;

const JNEK: Form = Form::JneImm;

const CALL: Form = Form::Call;

const EXIT: Form = Form::Exit;

// The form of each opcode byte, a line for each of its high four bits. `static`, since a `const` is laid onto the stack at every call.
static FORMS: [Form; 256] = [
    NONE, NONE, NONE, NONE, NONE, JUMP, NONE, ADDK, NONE, NONE, NONE, NONE, NONE, NONE, NONE, ADDX,
    NONE, NONE, NONE, NONE, NONE, JEQK, NONE, SUBK, WIDE, NONE, NONE, NONE, NONE, NONE, NONE, SUBX,
    NONE, NONE, NONE, NONE, NONE, NONE, NONE, MULK, NONE, NONE, NONE, NONE, NONE, NONE, NONE, MULX,
    NONE, NONE, NONE, NONE, NONE, NONE, NONE, DIVK, NONE, NONE, NONE, NONE, NONE, NONE, NONE, DIVX,
    NONE, NONE, NONE, NONE, NONE, NONE, NONE, NONE, NONE, NONE, NONE, NONE, NONE, NONE, NONE, NONE,
    NONE, NONE, NONE, NONE, NONE, JNEK, NONE, NONE, NONE, NONE, NONE, NONE, NONE, NONE, NONE, NONE,
    NONE, LDXW, NONE, STXW, NONE, NONE, NONE, SHLK, NONE, LDXH, NONE, STXH, NONE, NONE, NONE, SHLX,
    NONE, LDXB, NONE, STXB, NONE, NONE, NONE, SHRK, NONE, LDXD, NONE, STXD, NONE, NONE, NONE, SHRX,
    NONE, NONE, NONE, NONE, NONE, CALL, NONE, NONE, NONE, NONE, NONE, NONE, NONE, NONE, NONE, NONE,
    NONE, NONE, NONE, NONE, NONE, EXIT, NONE, MODK, NONE, NONE, NONE, NONE, NONE, NONE, NONE, MODX,
    NONE, NONE, NONE, NONE, NONE, NONE, NONE, NONE, NONE, NONE, NONE, NONE, NONE, NONE, NONE, NONE,
    NONE, NONE, NONE, NONE, NONE, NONE, NONE, MOVK, NONE, NONE, NONE, NONE, NONE, NONE, NONE, MOVX,
    NONE, NONE, NONE, NONE, NONE, NONE, NONE, NONE, NONE, NONE, NONE, NONE, NONE, NONE, NONE, NONE,
    NONE, NONE, NONE, NONE, NONE, NONE, NONE, NONE, NONE, NONE, NONE, NONE, NONE, NONE, NONE, NONE,
    NONE, NONE, NONE, NONE, NONE, NONE, NONE, NONE, NONE, NONE, NONE, NONE, NONE, NONE, NONE, NONE,
    NONE, NONE, NONE, NONE, NONE, NONE, NONE, NONE, NONE, NONE, NONE, NONE, NONE, NONE, NONE, NONE,
];

pub fn form_of(code: u8) -> Form
    ensures { result ≡ form_of code }
{
    FORMS[code as usize]
}
