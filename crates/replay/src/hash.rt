// The 64-bit FNV-1a hash.
ghost use Rattle.std.specs.Iterator.{IsFinite};

const BASIS: u64 = 14695981039346656037;

const PRIME: u64 = 1099511628211;

pub(crate) fn fnv1a<I: Iterator<Item = u8>>(bytes: I) -> u64
    requires can { I.can_next bytes }
    requires ends { IsFinite (I.remaining bytes) }
{
    bytes.fold(BASIS, |h, b| (h ^ u64::from(b)).wrapping_mul(PRIME))
}
