// A cursor over a message, and the verbs that every grammar rule is made of. A fault sticks: each verb hands a faulty cursor on.
ghost use Rattle.std.specs.Prelude.{◌≡◌, ◌+◌, ◌^◌, ◌<◌};
ghost use Rattle.grammar.specs.Cursor.{head_in, tag_at, fault_at, past_of, need_of, any_of, none_of, maybe_of, rest_of, done_of, enter_of, leave_of, content_of, value_of, small_integer_of, more_at};

use crate::part_of;
use crate::parts::found_span;
use der::head::{self, Head};
use der::integer::signed32;

// Where the next element is sought and where its parent ends; what the last one held; and the rule that is broken where the
// cursor stands, 0 while all is right.
#[derive(Clone, Copy)]
pub struct Cursor {
    pub at: usize,
    pub end: usize,
    pub from: usize,
    pub to: usize,
    pub rule: usize,
}

// The tag byte of the next element; 0, which is no tag, where nothing is left. No Option, since the definition `tag_at` is a number.
#[tactic(auto, unfolding(crate::specs::Cursor::tag_at))]
pub(crate) fn tag_at(m: &[u8], c: Cursor) -> u8
    ensures { result ≡ tag_at m.now c }
{
    match m.get(c.at..c.end) {
        Some([first, ..]) => *first,
        _ => 0,
    }
}

// What comes next, or is missing, is at fault.
pub(crate) fn fault_at(c: Cursor) -> Cursor
    ensures { result ≡ fault_at c }
{
    Cursor { rule: 5, ..c }
}

fn past(c: Cursor, start: usize, len: usize) -> Cursor
    requires { c.at + start + len < 2 ^ 64 }
    ensures { result ≡ past_of c start len }
{
    let from = c.at + start;
    let to = from + len;
    Cursor {
        at: to,
        from,
        to,
        rule: 0,
        ..c
    }
}

// Tag and length of the element between two offsets.
#[tactic(auto, unfolding(crate::specs::Cursor::head_in, der::specs::Head::head_of))]
fn head_in(m: &[u8], at: usize, end: usize) -> Head
    ensures { result ≡ head_in m.now at end }
{
    match m.get(at..end) {
        Some(left) => head::read(left),
        None => Err(2),
    }
}

// An element with this tag comes next.
#[tactic(auto, unfolding(crate::specs::Cursor::need_of), using(crate::proofs::CursorLaws::heads))]
pub(crate) fn need(m: &[u8], c: Cursor, tag: u8) -> Cursor
    ensures { result ≡ need_of m.now tag c }
{
    if c.rule != 0 {
        return c;
    }
    // the tag first, which is quicker
    if tag_at(m, c) != tag {
        return fault_at(c);
    }
    match head_in(m, c.at, c.end) {
        Ok(head) => past(c, head.start, head.len),
        Err(_) => fault_at(c),
    }
}

// One element comes next, whatever its tag.
#[tactic(auto, unfolding(crate::specs::Cursor::any_of))]
pub(crate) fn any(m: &[u8], c: Cursor) -> Cursor
    ensures { result ≡ any_of m.now c }
{
    need(m, c, tag_at(m, c))
}

// Nothing was read here: no span.
pub(crate) fn none(c: Cursor) -> Cursor
    ensures { result ≡ none_of c }
{
    Cursor {
        from: 0,
        to: 0,
        ..c
    }
}

// An element with this tag may come next.
#[tactic(auto, unfolding(crate::specs::Cursor::maybe_of))]
pub(crate) fn maybe(m: &[u8], c: Cursor, tag: u8) -> Cursor
    ensures { result ≡ maybe_of m.now tag c }
{
    if tag_at(m, c) == tag {
        need(m, c, tag)
    } else {
        none(c)
    }
}

// At most one more element, whatever its tag.
#[tactic(auto, unfolding(crate::specs::Cursor::rest_of))]
pub(crate) fn rest(m: &[u8], c: Cursor) -> Cursor
    ensures { result ≡ rest_of m.now c }
{
    if c.at < c.end { any(m, c) } else { none(c) }
}

// Nothing more comes.
#[tactic(auto, unfolding(crate::specs::Cursor::done_of))]
pub(crate) fn done(c: Cursor) -> Cursor
    ensures { result ≡ done_of c }
{
    if c.at < c.end { fault_at(c) } else { c }
}

// Into the element read last.
#[tactic(auto, unfolding(crate::specs::Cursor::enter_of))]
pub(crate) fn enter(c: Cursor) -> Cursor
    ensures { result ≡ enter_of c }
{
    if c.rule == 0 {
        Cursor {
            at: c.from,
            end: c.to,
            ..none(c)
        }
    } else {
        c
    }
}

// Back out of it, with a fault that was met inside.
#[tactic(auto, unfolding(crate::specs::Cursor::leave_of))]
pub(crate) fn leave(outer: Cursor, inner: Cursor) -> Cursor
    ensures { result ≡ leave_of outer inner }
{
    if inner.rule == 0 { outer } else { inner }
}

// What the element read last holds.
#[tactic(auto, unfolding(crate::specs::Cursor::content_of))]
pub(crate) fn content(m: &[u8], c: Cursor) -> &[u8]
    ensures { result.now ≡ content_of m.now c }
{
    part_of(m, found_span(c))
}

// The number that the INTEGER read last says.
#[tactic(auto, unfolding(crate::specs::Cursor::value_of))]
pub(crate) fn value(m: &[u8], c: Cursor) -> u32
    ensures { result ≡ value_of m.now c }
{
    signed32(content(m, c))
}

// An INTEGER of at most four content bytes.
#[tactic(auto, unfolding(crate::specs::Cursor::small_integer_of))]
pub(crate) fn small_integer(m: &[u8], c: Cursor) -> Cursor
    ensures { result ≡ small_integer_of m.now c }
{
    let n = need(m, c, 0x02);
    if 4 < n.to.saturating_sub(n.from) {
        fault_at(c)
    } else {
        n
    }
}

// Whether another element is to be read.
#[tactic(auto, unfolding(crate::specs::Cursor::more_at))]
pub(crate) fn more(c: Cursor) -> bool
    ensures { result ≡ more_at c }
{
    c.rule == 0 && c.at < c.end
}
