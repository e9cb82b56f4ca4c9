// A unit that was read whole and whose blocks are linked: what the passes from there on go by.
ghost use Rattle.std.specs.Prelude.{◌≡◌, Ok};
ghost use Rattle.unitfile.specs.Unit.{parse, read_unit};
ghost use Rattle.survey.specs.Surveyed.{blocks_of};
ghost use Rattle.passes.specs.Notes.{EndsAt};
ghost use Rattle.passes.specs.Stages.{Linked};

use unitfile::Found;

// Of each block: whether it is emitted, the numbers of the blocks that its targets mean, its terminator's place, how many ids that names, and the ids.
#[derive(Clone, Copy)]
pub(crate) struct Links<'a> {
    pub unit: &'a [u8],
    pub found: Found,
    pub emitted: &'a [u8],
    pub numbers: &'a [u32],
    pub endings: &'a [u32],
    pub counts: &'a [u8],
    pub named: &'a [u32],
    ghost read: { read_unit unit.now ≡ Ok found },
    ghost ends: { EndsAt unit.now endings.now },
    ghost linked: { Linked (blocks_of (parse unit.now)) emitted.now numbers.now endings.now counts.now named.now },
}
