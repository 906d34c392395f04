// Elements put into the buffer, and their sizes: around given parts, around numbers.
ghost use Rattle.std.specs.Prelude.{◌≡◌, [], ◌++◌, ℕ, ◌<◌};
ghost use Rattle.std.specs.Option.{MatchOption};
ghost use Rattle.std.proofs.Math.Option.{some, none};
ghost use Rattle.protocol.specs.Bytes.{bytes_of};
ghost use Rattle.protocol.specs.Message.{optional_part};
ghost use Rattle.encoding.specs.Element.{element, field, wrapped, integer};
ghost use Rattle.writer.specs.Wrote.{Wrote};
ghost use Rattle.writer.specs.Sizes.{Size};
ghost use Rattle.writer.specs.Code.{unneeded};

use crate::put::Cursor;
use crate::size::{around, size};
use grammar::{Span, part_of};
use parts::is_present;

// ## Around bytes

impl Cursor<'_> {
    pub(crate) fn put_element(&mut self, tag: u8, part: &[u8])
        ensures { Wrote (element tag part.now) self.old self.new }
    {
        self.put_head(tag, size(part));
        self.put_bytes(part);
    }

    // An explicit tag around an element.
    pub(crate) fn put_nested(&mut self, tag: u8, inner: u8, part: &[u8])
        ensures { Wrote (field tag inner (some part.now)) self.old self.new }
    {
        self.put_head(tag, around(size(part)));
        self.put_element(inner, part);
    }
}

pub(crate) fn nested_size(part: &[u8]) -> u16
    ensures { (tag inner : ℕ) → Size result (field tag inner (some part.now)) }
{
    around(around(size(part)))
}

// Of an explicit tag around an element that is given whole.
fn whole_size(part: &[u8]) -> u16
    ensures { (tag : ℕ) → Size result (wrapped tag (some part.now)) }
{
    around(size(part))
}

// ## Around given parts

impl Cursor<'_> {
    pub(crate) fn put_part(&mut self, src: &[u8], s: Span)
        ensures { Wrote (bytes_of (optional_part src.now s)) self.old self.new }
    {
        if let Some(part) = given_part(src, s) {
            self.put_bytes(part);
        }
    }

    #[tactic(auto, unfolding(encoding::specs::Element::field))]
    pub(crate) fn put_field(&mut self, tag: u8, inner: u8, src: &[u8], s: Span)
        ensures { Wrote (field tag inner (optional_part src.now s)) self.old self.new }
    {
        if let Some(part) = given_part(src, s) {
            self.put_nested(tag, inner, part);
        }
    }

    #[tactic(auto, unfolding(encoding::specs::Element::wrapped))]
    pub(crate) fn put_wrapped(&mut self, tag: u8, src: &[u8], s: Span)
        ensures { Wrote (wrapped tag (optional_part src.now s)) self.old self.new }
    {
        if let Some(part) = given_part(src, s) {
            self.put_element(tag, part);
        }
    }
}

// The part, where it is given.
pub(crate) fn given_part(src: &[u8], s: Span) -> Option<&[u8]>
    ensures { MatchOption result (optional_part src.now s ≡ none) (λ e. optional_part src.now s ≡ some e.now) }
{
    if is_present(s) {
        Some(part_of(src, s))
    } else {
        None
    }
}

pub(crate) fn part_size(src: &[u8], s: Span) -> u16
    ensures { Size result (bytes_of (optional_part src.now s)) }
{
    given_part(src, s).map_or(0, size)
}

#[tactic(auto, unfolding(encoding::specs::Element::field))]
pub(crate) fn field_size(src: &[u8], s: Span) -> u16
    ensures { (tag inner : ℕ) → Size result (field tag inner (optional_part src.now s)) }
{
    given_part(src, s).map_or(0, nested_size)
}

#[tactic(auto, unfolding(encoding::specs::Element::wrapped))]
pub(crate) fn wrapped_size(src: &[u8], s: Span) -> u16
    ensures { (tag : ℕ) → Size result (wrapped tag (optional_part src.now s)) }
{
    given_part(src, s).map_or(0, whole_size)
}

// ## INTEGER

impl Cursor<'_> {
    pub(crate) fn put_integer(&mut self, n: u32)
        ensures { Wrote (integer n) self.old self.new }
    {
        let four = n.to_be_bytes();
        let from = usize::from(unneeded(n));
        self.put_element(0x02, &four[from..]);
    }
}

// How many of a number's four bytes are not needed: those that repeat the sign.
#[tactic(auto, unfolding(crate::specs::Code::unneeded))]
fn unneeded(n: u32) -> u8
    ensures { (result ≡ unneeded n) × (result < 4) }
{
    match n {
        0..=0x7F | 0xFFFF_FF80.. => 3,
        0..=0x7FFF | 0xFFFF_8000.. => 2,
        0..=0x7F_FFFF | 0xFF80_0000.. => 1,
        _ => 0,
    }
}

pub(crate) fn integer_size(n: u32) -> u16
    ensures { Size result (integer n) }
{
    6 - u16::from(unneeded(n))
}
