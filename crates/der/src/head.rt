// Tag and length of an element: points 1 and 2 of document 01, "DER as we take it".
ghost use Rattle.std.specs.Prelude.{◌≡◌, ◌+◌, ◌^◌, ◌<◌};
ghost use Rattle.der.specs.Head.{tag_ok, inside, length_of, head_of};
ghost use Rattle.der.specs.Code.{packed_of};

// The head of an element whose content is `len` bytes from `start`.
#[derive(Clone, Copy)]
pub struct Whole {
    pub tag: u8,
    pub start: usize,
    pub len: usize,
}

// Tag and length of an element, or the rule that they break.
pub type Head = Result<Whole, u8>;

// Whether a tag may stand: one byte (the number 31 would say that more follow), and not the universal tag 0, primitive or constructed.
#[tactic(auto, unfolding(crate::specs::Head::tag_ok))]
pub fn tag_ok(t: u8) -> bool
    ensures { result ≡ tag_ok t }
{
    t % 32 != 31 && !matches!(t, 0x00 | 0x20)
}

// A head that is read, where its content ends in the `n` bytes that the parent has left.
#[tactic(auto, unfolding(crate::specs::Head::inside))]
fn inside(n: usize, tag: u8, start: usize, len: usize) -> Head
    requires { start + len < 2 ^ 64 }
    ensures { result ≡ inside n tag start len }
{
    if start + len <= n {
        Ok(Whole { tag, start, len })
    } else {
        Err(2)
    }
}

// The length alone, the tag not looked at: where the content starts and how long it is, in each of the three forms.
#[tactic(auto, unfolding(crate::specs::Head::length_of, crate::specs::Head::length81, crate::specs::Head::length82))]
pub(crate) fn read_length(s: &[u8]) -> Head
    ensures { result ≡ length_of s.now }
{
    match s {
        // below 128 the length is the one byte
        [tag, len, ..] if *len < 128 => inside(s.len(), *tag, 2, usize::from(*len)),
        // 81 xx: 128 to 255
        [tag, 0x81, len, ..] if 128 <= *len => inside(s.len(), *tag, 3, usize::from(*len)),
        // 82 xx xx: 256 up
        [tag, 0x82, high, low, ..] if *high != 0 => inside(
            s.len(),
            *tag,
            4,
            usize::from(*high) * 256 + usize::from(*low),
        ),
        _ => Err(2),
    }
}

// Tag and length of the element that `s` begins with; `s` ends where the parent's content does.
#[tactic(auto, unfolding(crate::specs::Head::head_of))]
pub fn read(s: &[u8]) -> Head
    ensures { result ≡ head_of s.now }
{
    match s {
        [] => Err(2),
        [tag, ..] if tag_ok(*tag) => read_length(s),
        _ => Err(1),
    }
}

// Tag and length as one number: the content's length times 8, and the bytes that tag and length take; 0 where they are bad. No code here
// asks for it: it is public, and documents name it.
pub fn packed(s: &[u8]) -> usize
    ensures { result ≡ packed_of (head_of s.now) }
{
    match read(s) {
        Err(_) => 0,
        Ok(whole) => whole.len * 8 + whole.start,
    }
}
