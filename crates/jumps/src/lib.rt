// The refusals 18 and 19: where the jumps of the emitted blocks land, by tables over the blocks' numbers.
#![tactic(auto)]

ghost use Rattle.std.specs.Prelude.{◌≡◌, ◌-◌, get_or};
ghost use Rattle.wire.specs.Pick.{pick};
ghost use Rattle.layout.specs.Jumps.{distance, to, nowhere, on_target};
ghost use Rattle.jumps.specs.Landed.{marked, landed_of, landed_by, landed_at, landed_from};

use wire::number::SlotNumber;

// Why a jump does not land: its terminator's place and the id it names.
#[derive(Clone, Copy)]
pub enum Astray {
    NoTarget(usize, u32),
    TooFar(usize, u32),
}

// What is known of a unit's blocks, by their numbers. Past the end of a list stands 0.
#[derive(Clone, Copy)]
pub struct Tables<'a> {
    // 1 at a block that is emitted
    pub emitted: &'a [u8],
    // the slot at which each begins, and then the slot after the last
    pub edges: &'a [u32],
    // the place of each one's terminator
    pub endings: &'a [u32],
    // how many ids it names
    pub counts: &'a [u8],
    // these ids, two places a block
    pub named: &'a [u32],
    // the numbers of the blocks that they mean, 1,024 for none
    pub numbers: &'a [u32],
}

impl Tables<'_> {
    #[tactic(auto, unfolding(crate::specs::Landed::marked))]
    fn is_emitted(&self, k: usize) -> bool
        ensures { result ≡ marked self.now.emitted.now k }
    {
        wire::get_u8(self.emitted, k) == 1
    }

    // The slot at which block k begins.
    fn begins(&self, k: usize) -> u32
        ensures { result ≡ get_or self.now.edges.now k 0 }
    {
        number_at(self.edges, k)
    }

    // The place of block k's terminator.
    fn ending(&self, k: usize) -> u32
        ensures { result ≡ get_or self.now.endings.now k 0 }
    {
        number_at(self.endings, k)
    }

    // How many ids block k's terminator names.
    fn count(&self, k: usize) -> u8
        ensures { result ≡ get_or self.now.counts.now k 0 }
    {
        wire::get_u8(self.counts, k)
    }

    // The t-th of the ids that are named.
    fn id(&self, t: usize) -> u32
        ensures { result ≡ get_or self.now.named.now t 0 }
    {
        number_at(self.named, t)
    }

    // The number of the block that it means.
    fn target(&self, t: usize) -> u32
        ensures { result ≡ get_or self.now.numbers.now t 0 }
    {
        number_at(self.numbers, t)
    }
}

// The number at i, 0 past the end.
fn number_at(l: &[u32], i: usize) -> u32
    ensures { result ≡ get_or l.now i 0 }
{
    l.get(i).copied().unwrap_or(0)
}

// Target slot − own slot − 1, a signed number.
pub fn distance(target: SlotNumber, own: SlotNumber) -> i64
    ensures { result ≡ distance target.0 own.0 }
{
    target.0 as i64 - own.0 as i64 - 1
}

// One jump, to the block with a number, 1,024 for none.
#[tactic(auto, unfolding(crate::specs::Landed::landed_of, layout::specs::Jumps::on_target))]
fn land(tables: &Tables<'_>, place: u32, own: u32, id: u32, number: u32) -> Result<(), Astray>
    ensures { result ≡ landed_of (on_target (record { place = place; own = own; id = id }) (pick (marked tables.now.emitted.now number) (to (get_or tables.now.edges.now number 0)) nowhere)) }
{
    let number = number as usize;
    if tables.is_emitted(number) {
        let far = distance(SlotNumber(tables.begins(number)), SlotNumber(own));
        if wire::range::fits16(far) {
            return Ok(());
        }
        return Err(Astray::TooFar(place as usize, id));
    }
    Err(Astray::NoTarget(place as usize, id))
}

// The jump of block k that stands some slots before the next block, to the t-th of the ids that are named.
#[tactic(auto, unfolding(crate::specs::Landed::landed_by))]
fn land_by(tables: &Tables<'_>, k: u32, back: u32, t: usize) -> Result<(), Astray>
    ensures { result ≡ landed_by tables.now.emitted.now tables.now.edges.now tables.now.endings.now tables.now.named.now tables.now.numbers.now k back t }
{
    let k = k as usize;
    land(
        tables,
        tables.ending(k),
        tables.begins(k + 1).saturating_sub(back),
        tables.id(t),
        tables.target(t),
    )
}

// The jumps of a block that is emitted, in patch order: for a branch, the false target first. A JA is the block's last slot, a JNE the one before it.
#[tactic(auto, unfolding(crate::specs::Landed::landed_at, crate::specs::Landed::or_next))]
fn land_block(tables: &Tables<'_>, k: u32) -> Result<(), Astray>
    ensures { result ≡ landed_at tables.now.emitted.now tables.now.edges.now tables.now.endings.now tables.now.counts.now tables.now.named.now tables.now.numbers.now k }
{
    let count = tables.count(k as usize);
    if count == 0 {
        return Ok(());
    }
    let first = 2 * (k as usize);
    let second = first + 1;
    if count == 1 {
        return land_by(tables, k, 1, first);
    }
    land_by(tables, k, 1, second)?;
    land_by(tables, k, 2, first)
}

// The jumps of n blocks.
#[tactic(auto, using(crate::proofs::Blocks::on_emitted, crate::proofs::Blocks::on_silent, crate::proofs::Blocks::on_end_lem), unfolding(crate::specs::Landed::or_next))]
pub fn check_jumps(n: u32, tables: &Tables<'_>) -> Result<(), Astray>
    ensures { result ≡ landed_from tables.now.emitted.now tables.now.edges.now tables.now.endings.now tables.now.counts.now tables.now.named.now tables.now.numbers.now 0 n }
{
    for k in 0..n {
        if tables.is_emitted(k as usize) {
            land_block(tables, k)?;
        }
    }
    Ok(())
}
