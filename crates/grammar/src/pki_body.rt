// PKIBody.
ghost use Rattle.std.specs.Prelude.{◌≡◌};
ghost use Rattle.grammar.specs.Body.{plain, from_entries, at_least_one, requests_of, responses_of, confirmations_of, error_of, p10cr_of, contents_of, body_tag, body_of};

use crate::cursor::{Cursor, any, done, enter, fault_at, leave, maybe, need, tag_at};
use crate::entries::{Entries, EntryKind, NO_ENTRY, only, read_entries};
use crate::parts::{
    Each, NO_SPAN, found_span, maybe_text, sequence_field, status_info, whole_span,
};
use crate::{Body, Entry, Span};

// What a body holds.
#[derive(Clone, Copy)]
pub struct Contents {
    pub cur: Cursor,
    pub entries: usize,
    pub ca_pubs: Span,
    pub entry: Entry,
}

// The body, and the cursor past it: a struct for each part that is read, as definitions in specs/ name their fields.
#[derive(Clone, Copy)]
pub struct BodyRead {
    pub cur: Cursor,
    pub body: Body,
}

fn from_entries(cur: Cursor, ca_pubs: Span, e: Entries) -> Contents
    ensures { result ≡ from_entries cur ca_pubs e }
{
    Contents {
        cur,
        entries: e.count,
        ca_pubs,
        entry: only(e),
    }
}

#[tactic(auto, unfolding(crate::specs::Body::at_least_one))]
fn at_least_one(e: Entries) -> Cursor
    ensures { result ≡ at_least_one e }
{
    if e.count == 0 { fault_at(e.cur) } else { e.cur }
}

// CertReqMessages: ir, cr and kur.
#[tactic(auto, unfolding(crate::specs::Body::requests_of))]
fn requests(m: &[u8], c: Cursor) -> Contents
    ensures { result ≡ requests_of m.now c }
{
    let s = need(m, c, 0x30);
    let e = read_entries(m, enter(s), EntryKind::Request);
    from_entries(leave(s, at_least_one(e)), NO_SPAN, e)
}

// CertRepMessage: ip, cp and kup.
#[tactic(auto, unfolding(crate::specs::Body::responses_of))]
fn responses(m: &[u8], c: Cursor) -> Contents
    ensures { result ≡ responses_of m.now c }
{
    let s = need(m, c, 0x30);
    let a = sequence_field(m, enter(s), 0xA1, Each::Certificate);
    let q = need(m, a, 0x30);
    let e = read_entries(m, enter(q), EntryKind::Response);
    let cur = leave(s, done(leave(q, e.cur)));
    from_entries(cur, found_span(a), e)
}

// CertConfirmContent.
#[tactic(auto, unfolding(crate::specs::Body::confirmations_of))]
fn confirmations(m: &[u8], c: Cursor) -> Contents
    ensures { result ≡ confirmations_of m.now c }
{
    let s = need(m, c, 0x30);
    let e = read_entries(m, enter(s), EntryKind::Status);
    from_entries(leave(s, e.cur), NO_SPAN, e)
}

// ErrorMsgContent.
#[tactic(auto, unfolding(crate::specs::Body::error_of))]
fn error(m: &[u8], c: Cursor) -> Contents
    ensures { result ≡ error_of m.now c }
{
    let s = need(m, c, 0x30);
    let i = status_info(m, enter(s));
    let n = maybe(m, i.cur, 0x02);
    let t = maybe_text(m, n);
    Contents {
        entry: Entry {
            status: i.status,
            ..NO_ENTRY
        },
        ..plain_contents(leave(s, done(t)))
    }
}

// A body of no interest but for its end.
fn plain_contents(cur: Cursor) -> Contents
    ensures { result ≡ plain cur }
{
    Contents {
        cur,
        entries: 0,
        ca_pubs: NO_SPAN,
        entry: NO_ENTRY,
    }
}

// PKCS #10: the request is the one element.
#[tactic(auto, unfolding(crate::specs::Body::p10cr_of))]
fn p10cr(m: &[u8], c: Cursor) -> Contents
    ensures { result ≡ p10cr_of m.now c }
{
    let e = any(m, c);
    Contents {
        entry: Entry {
            request: whole_span(c, e),
            ..NO_ENTRY
        },
        ..plain_contents(e)
    }
}

// What a body of this kind holds; the kinds that are not named are generic here.
#[tactic(auto, unfolding(crate::specs::Body::contents_of, crate::specs::Body::other_of))]
fn contents_of(m: &[u8], c: Cursor, kind: u8) -> Contents
    ensures { result ≡ contents_of m.now kind c }
{
    match kind {
        0 | 2 | 7 => requests(m, c),
        1 | 3 | 8 => responses(m, c),
        4 => p10cr(m, c),
        19 => plain_contents(need(m, c, 0x05)),
        23 => error(m, c),
        24 => confirmations(m, c),
        _ => plain_contents(any(m, c)),
    }
}

// The next element's tag: [0] to [26], constructed.
#[tactic(auto, unfolding(crate::specs::Body::body_tag))]
fn body_tag(m: &[u8], c: Cursor) -> Cursor
    ensures { result ≡ body_tag m.now c }
{
    match tag_at(m, c) {
        t @ 0xA0..=0xBA => need(m, c, t),
        _ => fault_at(c),
    }
}

#[tactic(auto, unfolding(crate::specs::Body::body_of))]
pub(crate) fn read_body(m: &[u8], c: Cursor) -> BodyRead
    ensures { result ≡ body_of m.now c }
{
    let kind = tag_at(m, c).saturating_sub(0xA0);
    let b = body_tag(m, c);
    let i = contents_of(m, enter(b), kind);
    BodyRead {
        cur: leave(b, done(i.cur)),
        body: Body {
            kind,
            entries: i.entries,
            ca_pubs: i.ca_pubs,
            entry: i.entry,
        },
    }
}
