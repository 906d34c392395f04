// Sizes in 16 bits. What is longer counts as the largest, and is over every limit.
ghost use Rattle.std.specs.Prelude.{◌≡◌, ◌+◌};
ghost use Rattle.writer.specs.Sizes.{size16, head_size, Size};

pub(crate) fn sum(a: u16, b: u16) -> u16
    ensures { result ≡ size16 (a + b) }
{
    a.saturating_add(b)
}

// Of an element around so many bytes.
pub(crate) fn around(len: u16) -> u16
    ensures { result ≡ size16 (len + head_size len) }
{
    match len {
        0..=127 => len + 2,
        128..=255 => len + 3,
        _ => sum(len, 4),
    }
}

pub(crate) fn size(part: &[u8]) -> u16
    ensures { Size result part.now }
{
    u16::try_from(part.len()).unwrap_or(u16::MAX)
}
