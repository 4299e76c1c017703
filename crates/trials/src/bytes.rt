// Arrays with one byte changed.
ghost use Rattle.std.specs.Prelude.{◌<◌};

// The bytes with another one at a place.
pub(crate) fn with<const N: usize>(bytes: [u8; N], at: usize, byte: u8) -> [u8; N]
    requires { at < N }
{
    let mut changed = bytes;
    changed[at] = byte;
    changed
}

// The bytes with one bit changed at a place.
pub(crate) fn flipped<const N: usize>(bytes: [u8; N], at: usize) -> [u8; N]
    requires { at < N }
{
    with(bytes, at, bytes[at] ^ 1)
}
