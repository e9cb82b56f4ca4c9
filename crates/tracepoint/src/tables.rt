// What the passes learn of a unit's blocks, by the blocks' numbers.

// Lent, so that what goes over them is compiled once, and not anew for each size.
#[derive(Drop)]
pub(crate) struct Lists<'a> {
    pub(crate) ids: &'a mut [u32],
    // the places of the terminators
    pub(crate) endings: &'a mut [u32],
    // how many ids each terminator names, these ids, and the numbers of the blocks that they mean
    pub(crate) counts: &'a mut [u8],
    pub(crate) named: &'a mut [u32],
    pub(crate) numbers: &'a mut [u32],
    // 1 at a block that is emitted
    pub(crate) emitted: &'a mut [u8],
    // the slot at which each block begins, and then the slot after the last
    pub(crate) edges: &'a mut [u32],
}
