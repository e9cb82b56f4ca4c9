// What lowering is told of a whole unit: which variables are branch conditions of any block, and where each block goes.
ghost use Rattle.std.specs.Prelude.{◌≡◌, ◌+◌, ◌*◌, ◌≤◌, ◌<◌, length, Ok};
ghost use Rattle.unitfile.specs.Unit.{parse, read_unit};
ghost use Rattle.frame.specs.Lent.{index_in};
ghost use Rattle.survey.specs.Surveyed.{blocks_of};
ghost use Rattle.survey.specs.Collected.{Fits};
ghost use Rattle.passes.specs.Inner.{mark_at, condition_in};
ghost use Rattle.passes.specs.Notes.{marks_after, count_of, first_target, second_target, Notes, EndsAt, Noted};

use frame::Frame;
use ir::{Operand, Terminator};
use recordparts::terminator::terminator_in;
use unitfile::Found;

// The frame of a unit, and a mark beside each of its variables, 1 where it is a branch condition of any block.
#[derive(Clone, Copy)]
pub(crate) struct Context<'a> {
    pub frame: Frame<'a>,
    pub marks: &'a [u8; 56],
    ghost few: { length frame.variables.now ≤ 56 },
}

impl Context<'_> {
    ghost use Rattle.tracepoint.specs.Lent.{context_in};

    // A variable's mark.
    #[tactic(auto, unfolding(passes::specs::Inner::condition_at, jumps::specs::Landed::marked))]
    fn is_condition(self, v: u32) -> bool
        ensures { result ≡ (context_in self.entry).condition v }
    {
        let i = self.frame.index(v);
        if i < self.frame.variables.len() {
            return self.marks[i] == 1;
        }
        false
    }

    // That of the result of the instruction in a payload. Only a NullCheck, code 7, goes by it; for any other it is not looked for.
    #[tactic(auto, unfolding(passes::specs::Inner::condition_in))]
    pub(crate) fn condition_of(self, payload: &[u8]) -> bool
        ensures { result ≡ condition_in (context_in self.entry) payload.now }
    {
        if wire::get_u8(payload, 4) == 7 {
            return self.is_condition(wire::get_u32(payload, 0));
        }
        false
    }
}

// ---- what the terminators tell

#[tactic(auto, unfolding(passes::specs::Inner::mark_at))]
fn mark(frame: Frame<'_>, marks: &mut [u8; 56], v: u32)
    requires { length frame.variables.now ≤ 56 }
    ensures { marks.new ≡ mark_at frame.entry.variables.now marks.old (index_in frame.entry v) }
{
    let i = frame.index(v);
    if i < frame.variables.len() {
        marks[i] = 1;
        return;
    }
}

// The variable of a branch is marked.
#[tactic(auto, unfolding(passes::specs::Notes::marks_on, passes::specs::Notes::marks_after))]
fn mark_condition(frame: Frame<'_>, marks: &mut [u8; 56], t: Terminator)
    requires { length frame.variables.now ≤ 56 }
    ensures { marks.new ≡ marks_after frame.entry.variables.now frame.entry.hints.now marks.old t }
{
    match t {
        Terminator::Return(_) => {}
        Terminator::Jump(_) => {}
        Terminator::Branch {
            condition,
            true_block: _,
            false_block: _,
        } => match condition {
            Operand::Var(v) => mark(frame, marks, v),
            Operand::Immediate(_) => {}
        },
    }
}

// How many targets a terminator has, and their ids, 0 for none.
#[tactic(auto, unfolding(passes::specs::Notes::count_of))]
fn count_of(t: Terminator) -> u8
    ensures { result ≡ count_of t }
{
    match t {
        Terminator::Return(_) => 0,
        Terminator::Jump(_) => 1,
        Terminator::Branch {
            condition: _,
            true_block: _,
            false_block: _,
        } => 2,
    }
}

#[tactic(auto, unfolding(passes::specs::Notes::first_target))]
fn first_target(t: Terminator) -> u32
    ensures { result ≡ first_target t }
{
    match t {
        Terminator::Return(_) => 0,
        Terminator::Jump(target) => target,
        Terminator::Branch {
            condition: _,
            true_block,
            false_block: _,
        } => true_block,
    }
}

#[tactic(auto, unfolding(passes::specs::Notes::second_target))]
fn second_target(t: Terminator) -> u32
    ensures { result ≡ second_target t }
{
    match t {
        Terminator::Return(_) => 0,
        Terminator::Jump(_) => 0,
        Terminator::Branch {
            condition: _,
            true_block: _,
            false_block,
        } => false_block,
    }
}

// What the terminator t of block k tells. The ids stand twice, since one list of them becomes numbers.
fn note(
    frame: Frame<'_>,
    k: usize,
    t: Terminator,
    marks: &mut [u8; 56],
    counts: &mut [u8],
    targets: &mut [u32],
    numbers: &mut [u32],
)
    requires { (length frame.variables.now ≤ 56) × (k < 1024) × (k < length counts.old) × (2 * k + 1 < length targets.old) × (2 * k + 1 < length numbers.old) }
    ensures notes { Notes frame.entry.variables.now frame.entry.hints.now k t marks.old counts.old targets.old marks.new counts.new targets.new }
    ensures notes_2 { Notes frame.entry.variables.now frame.entry.hints.now k t marks.old counts.old numbers.old marks.new counts.new numbers.new }
{
    mark_condition(frame, marks, t);
    counts[k] = count_of(t);
    let a = first_target(t);
    let b = second_target(t);
    targets[2 * k] = a;
    targets[2 * k + 1] = b;
    numbers[2 * k] = a;
    numbers[2 * k + 1] = b;
}

// The blocks of a unit that was read whole, by the places of their terminators.
pub(crate) fn note_blocks(
    unit: &[u8],
    found: Found,
    frame: Frame<'_>,
    endings: &[u32],
    marks: &mut [u8; 56],
    counts: &mut [u8],
    targets: &mut [u32],
    numbers: &mut [u32],
)
    requires unit_value { read_unit unit.now ≡ Ok found }
    requires fits { Fits frame.variables.now × EndsAt unit.now endings.now × (length marks.old ≡ 56) }
    requires blocks_in_bounds { (found.blocks ≤ length endings.now) × (found.blocks ≤ length counts.old) × (2 * found.blocks ≤ length targets.old) × (2 * found.blocks ≤ length numbers.old) }
    ensures noted { Noted (blocks_of (parse unit.now)) frame.entry.variables.now marks.old counts.old targets.old marks.new counts.new targets.new }
    ensures noted_2 { Noted (blocks_of (parse unit.now)) frame.entry.variables.now marks.old counts.old numbers.old marks.new counts.new numbers.new }
{
    let n = found.blocks as usize;
    for k in 0..n {
        let t = terminator_in(unit, endings[k] as usize + 4);
        note(frame, k, t, marks, counts, targets, numbers);
    }
}
