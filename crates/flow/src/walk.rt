// The walk over the blocks that are reached from the first.
ghost use Rattle.std.specs.Prelude.{◌≡◌, ◌+◌, ◌*◌, ◌≤◌, ◌<◌, ◌++◌, length};
ghost use Rattle.flow.specs.Way.{outs, Clear, Marked};

use crate::pending::Pending;

// Block b's targets go onto the pending list.
#[tactic(auto, using(crate::proofs::Reaching::outs_none, crate::proofs::Reaching::outs_one, crate::proofs::Reaching::outs_two))]
fn push_targets<const PENDING: usize>(
    b: usize,
    counts: &[u8],
    targets: &[u32],
    pending: &mut Pending<PENDING>,
)
    requires inside { (b < length counts.now) × (length targets.now ≡ 2 * length counts.now) }
    requires room { length pending.old + 2 ≤ PENDING }
    ensures { pending.new ≡ pending.old ++ outs counts.now targets.now b }
{
    match counts[b] {
        0 => {}
        1 => pending.push(targets[2 * b]),
        _ => {
            pending.push(targets[2 * b]);
            pending.push(targets[2 * b + 1]);
        }
    }
}

// Marks the blocks that are reached from the first: takes a pending one, skips it if it is marked or there is none, marks it and adds its targets.
pub(crate) fn reach<const PENDING: usize>(
    first: u32,
    counts: &[u8],
    targets: &[u32],
    marks: &mut [bool],
)
    requires room { (2 * length counts.now < PENDING) × (PENDING < 4096) }
    requires same { (length targets.now ≡ 2 * length counts.now) × (length counts.now ≤ length marks.old) }
    requires clear { Clear marks.old }
    ensures { Marked (length counts.now) first counts.now targets.now marks.new }
{
    let mut pending = Pending::<PENDING>::new();
    pending.push(first);
    while let Some(number) = pending.pop() {
        let b = number as usize;
        if b < counts.len() && !marks[b] {
            marks[b] = true;
            push_targets(b, counts, targets, &mut pending);
        }
    }
}
