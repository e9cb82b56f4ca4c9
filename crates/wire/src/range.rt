// Ranges of numbers: whether a signed number lies in that of a narrower type.
ghost use Rattle.std.specs.Prelude.{◌≡◌};
ghost use Rattle.wire.specs.Range.{fits16, fits32};

pub fn fits16(z: i64) -> bool
    ensures { result ≡ fits16 z }
{
    i16::try_from(z).is_ok()
}

pub fn fits32(z: i64) -> bool
    ensures { result ≡ fits32 z }
{
    i32::try_from(z).is_ok()
}
