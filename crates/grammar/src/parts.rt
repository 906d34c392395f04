// Grammar rules that several parts of a message share.
ghost use Rattle.std.specs.Prelude.{◌≡◌, ◌&&◌, ◌+◌, ◌≤◌, eqb, IfSome};
ghost use Rattle.der.specs.Head.{tag_ok};
ghost use Rattle.grammar.specs.Code.{past_field, Computes, around_of};
ghost use Rattle.grammar.specs.Cursor.{need_of, done_of, enter_of, leave_of};
ghost use Rattle.grammar.specs.Span.{span_from};
ghost use Rattle.grammar.specs.Parts.{found_span, whole_span, outer_span, found_of, typed_of, one_of, all_by, sequence_of, optional_field, field_of, typed_field, any_field, sequence_field, maybe_text, last_bit_set, fail_info_of, status_of, maybe_status};

use crate::Span;
use crate::cursor::{
    Cursor, any, content, done, enter, fault_at, leave, more, need, none, rest, small_integer,
    tag_at, value,
};
use der::Offset;
use der::head::tag_ok;

// What a SEQUENCE OF holds.
#[derive(Clone, Copy)]
pub enum Each {
    Text,
    Certificate,
    Info,
}

// PKIStatusInfo: its status, or none where it is not there.
#[derive(Clone, Copy)]
pub struct Status {
    pub cur: Cursor,
    pub status: Option<u32>,
}

// An absent part.
pub(crate) const NO_SPAN: Span = Span {
    start: Offset(0),
    len: 0,
};

// From one offset up to another.
pub(crate) fn span_from(a: usize, b: usize) -> Span
    ensures { result ≡ span_from a b }
{
    Span {
        start: Offset(a),
        len: b.saturating_sub(a),
    }
}

// The content of the element read last.
pub(crate) fn found_span(c: Cursor) -> Span
    ensures { result ≡ found_span c }
{
    span_from(c.from, c.to)
}

// The whole element between two cursors.
pub(crate) fn whole_span(before: Cursor, after: Cursor) -> Span
    ensures { result ≡ whole_span before after }
{
    span_from(before.at, after.at)
}

// The whole element between two cursors, if one was read there.
pub(crate) fn outer_span(before: Cursor, after: Cursor) -> Span
    ensures { result ≡ outer_span before after }
{
    if after.from == 0 {
        NO_SPAN
    } else {
        whole_span(before, after)
    }
}

// Back out of an element, with the span of what was found inside.
#[tactic(auto, unfolding(crate::specs::Parts::found_of, crate::specs::Cursor::leave_of))]
pub(crate) fn found(outer: Cursor, inner: Cursor) -> Cursor
    ensures { result ≡ found_of outer inner }
{
    let there = Cursor {
        from: inner.from,
        to: inner.to,
        ..outer
    };
    leave(there, inner)
}

// An element with this tag, which holds what `inside` reads and nothing after it.
pub(crate) fn around<F: FnOnce(Cursor) -> Cursor>(m: &[u8], c: Cursor, tag: u8, inside: F) -> Cursor
    requires { F.IsAlwaysCallable inside }
    ensures { (f : Cursor → Cursor) → Computes (F.post inside) f → result ≡ around_of m.now tag f c }
{
    let o = need(m, c, tag);
    leave(o, done(inside(enter(o))))
}

// The same where the tag comes next, and nothing otherwise.
fn optional<F: FnOnce(Cursor) -> Cursor>(m: &[u8], c: Cursor, tag: u8, inside: F) -> Cursor
    requires { F.IsAlwaysCallable inside }
    ensures { (f : Cursor → Cursor) → Computes (F.post inside) f → result ≡ optional_field leave_of m.now tag f c }
{
    if tag_at(m, c) == tag {
        around(m, c, tag, inside)
    } else {
        none(c)
    }
}

// AlgorithmIdentifier or InfoTypeAndValue. Not by `around`: a closure of two calls needs clauses of its own, and is no plainer.
#[tactic(auto, unfolding(crate::specs::Parts::typed_of))]
pub(crate) fn typed(m: &[u8], c: Cursor) -> Cursor
    ensures { result ≡ typed_of m.now c }
{
    let s = need(m, c, 0x30);
    let o = need(m, enter(s), 0x06);
    leave(s, done(rest(m, o)))
}

// One element of it. Inlined, so that which it is to be is asked outside the loop.
#[inline(always)]
#[tactic(auto, unfolding(crate::specs::Parts::one_of))]
fn one(m: &[u8], c: Cursor, what: Each) -> Cursor
    ensures { result ≡ one_of m.now what c }
{
    match what {
        Each::Text => need(m, c, 0x0C),
        Each::Certificate => need(m, c, 0x30),
        Each::Info => typed(m, c),
    }
}

// Such elements, one after another up to the parent's end.
#[tactic(auto, using(crate::proofs::PartsLaws::one_by_one))]
fn all(m: &[u8], c: Cursor, what: Each) -> Cursor
    ensures { result ≡ all_by (one_of m.now what) c }
{
    let mut k = c;
    while more(k) {
        k = one(m, k, what);
    }
    k
}

// A SEQUENCE of one or more.
#[tactic(auto, unfolding(crate::specs::Parts::sequence_of, crate::specs::Parts::sequence_by))]
pub(crate) fn sequence_of(m: &[u8], c: Cursor, what: Each) -> Cursor
    ensures { result ≡ sequence_of m.now what c }
{
    let s = need(m, c, 0x30);
    let first = one(m, enter(s), what);
    leave(s, all(m, first, what))
}

// [n] around one element with the tag `inner`, both with a short length and nothing after the one inside: where they end. None where it
// is otherwise, and the two are to be read one after the other.
#[tactic(auto, using(crate::proofs::PartsLaws::short_ends))]
fn short_field(m: &[u8], c: Cursor, tag: u8, inner: u8) -> Option<usize>
    ensures { IfSome result (λ to. (c.at + 4 ≤ to) × (field_of m.now tag inner c ≡ past_field c to)) }
{
    let left = m.get(c.at..c.end)?;
    let [first, len, second, held, ..] = left else {
        return None;
    };
    let len = usize::from(*len);
    if tags_ok(*first, tag, inner, c.rule)
        && *second == inner
        && len <= 127
        && len + 2 <= left.len()
        && usize::from(*held) + 2 == len
    {
        Some(c.at + 2 + len)
    } else {
        None
    }
}

// The tag is the one asked, both may stand, and no rule is broken.
fn tags_ok(first: u8, tag: u8, inner: u8, rule: usize) -> bool
    ensures { result ≡ (eqb rule 0 && (eqb first tag && (tag_ok tag && tag_ok inner))) }
{
    rule == 0 && first == tag && tag_ok(tag) && tag_ok(inner)
}

// The two one after the other.
fn long_field(m: &[u8], c: Cursor, tag: u8, inner: u8) -> Cursor
    ensures { result ≡ found_of (need_of m.now tag c) (done_of (need_of m.now inner (enter_of (need_of m.now tag c)))) }
{
    let o = need(m, c, tag);
    let i = need(m, enter(o), inner);
    found(o, done(i))
}

// [n] around one element with the tag `inner`: the span is what that one holds.
#[tactic(auto, unfolding(crate::specs::Parts::field_of))]
pub(crate) fn field(m: &[u8], c: Cursor, tag: u8, inner: u8) -> Cursor
    ensures { result ≡ field_of m.now tag inner c }
{
    if tag_at(m, c) != tag {
        return none(c);
    }
    match short_field(m, c, tag, inner) {
        Some(to) => Cursor {
            at: to,
            from: c.at + 4,
            to,
            rule: 0,
            ..c
        },
        None => long_field(m, c, tag, inner),
    }
}

// [n] around an AlgorithmIdentifier, which is the span.
#[tactic(auto, unfolding(crate::specs::Parts::typed_field))]
pub(crate) fn typed_field(m: &[u8], c: Cursor, tag: u8) -> Cursor
    ensures { result ≡ typed_field m.now tag c }
{
    optional(m, c, tag, |i| typed(m, i))
}

// [n] around one element, whatever it is, which is the span.
#[tactic(auto, unfolding(crate::specs::Parts::any_field))]
pub(crate) fn any_field(m: &[u8], c: Cursor, tag: u8) -> Cursor
    ensures { result ≡ any_field m.now tag c }
{
    optional(m, c, tag, |i| any(m, i))
}

// [n] around a SEQUENCE of one or more, which is the span.
#[tactic(auto, unfolding(crate::specs::Parts::sequence_field))]
pub(crate) fn sequence_field(m: &[u8], c: Cursor, tag: u8, what: Each) -> Cursor
    ensures { result ≡ sequence_field m.now tag what c }
{
    optional(m, c, tag, |i| sequence_of(m, i, what))
}

// PKIFreeText, or none.
#[tactic(auto, unfolding(crate::specs::Parts::maybe_text))]
pub(crate) fn maybe_text(m: &[u8], c: Cursor) -> Cursor
    ensures { result ≡ maybe_text m.now c }
{
    if tag_at(m, c) == 0x30 {
        sequence_of(m, c, Each::Text)
    } else {
        none(c)
    }
}

// Whether a BIT STRING ends in a bit that is set, or has none.
#[tactic(auto, unfolding(crate::specs::Parts::last_bit_set))]
fn last_bit_set(b: &[u8]) -> bool
    ensures { result ≡ last_bit_set b.now }
{
    match b {
        [unused, .., last] => 7 < *unused || (*last >> *unused) % 2 == 1,
        _ => true,
    }
}

// PKIFailureInfo, or none.
#[tactic(auto, unfolding(crate::specs::Parts::fail_info_of))]
fn fail_info(m: &[u8], c: Cursor) -> Cursor
    ensures { result ≡ fail_info_of m.now c }
{
    if tag_at(m, c) != 0x03 {
        return none(c);
    }
    let b = need(m, c, 0x03);
    if last_bit_set(content(m, b)) {
        b
    } else {
        fault_at(c)
    }
}

// PKIStatusInfo.
#[tactic(auto, unfolding(crate::specs::Parts::status_of))]
pub(crate) fn status_info(m: &[u8], c: Cursor) -> Status
    ensures { result ≡ status_of m.now c }
{
    let s = need(m, c, 0x30);
    let v = small_integer(m, enter(s));
    let t = maybe_text(m, v);
    let f = fail_info(m, t);
    Status {
        cur: leave(s, done(f)),
        status: Some(value(m, v)),
    }
}

// PKIStatusInfo, or none.
#[tactic(auto, unfolding(crate::specs::Parts::maybe_status))]
pub(crate) fn maybe_status(m: &[u8], c: Cursor) -> Status
    ensures { result ≡ maybe_status m.now c }
{
    if tag_at(m, c) == 0x30 {
        status_info(m, c)
    } else {
        Status {
            cur: c,
            status: None,
        }
    }
}
