// The entries of a body: request messages, responses and certificate statuses.
ghost use Rattle.std.specs.Prelude.{◌≡◌, ◌+◌, ◌^◌, ◌<◌};
ghost use Rattle.grammar.specs.Entries.{no_entries, request_of, choice_of, key_pair, maybe_key_pair, response_of, cert_status_of, entry_of, next, entries_of, only_of};

use crate::Entry;
use crate::cursor::{
    Cursor, any, done, enter, leave, maybe, more, need, none, small_integer, tag_at, value,
};
use crate::parts::{
    NO_SPAN, any_field, around, found, found_span, maybe_status, status_info, typed_field,
    whole_span,
};

// What a body's entries are.
#[derive(Clone, Copy)]
pub enum EntryKind {
    Request,
    Response,
    Status,
}

// An entry, and the cursor past it.
#[derive(Clone, Copy)]
pub struct Item {
    pub cur: Cursor,
    pub entry: Entry,
}

// The entries read so far: how many, and the last one.
#[derive(Clone, Copy)]
pub struct Entries {
    pub cur: Cursor,
    pub count: usize,
    pub last: Entry,
}

// What a body with no entry says.
pub(crate) const NO_ENTRY: Entry = Entry {
    number: 0,
    status: None,
    cert_hash: NO_SPAN,
    hash_alg: NO_SPAN,
    certificate: NO_SPAN,
    request: NO_SPAN,
};

// CertReqMsg, as far as its certReqId.
#[tactic(auto, unfolding(crate::specs::Entries::request_of))]
pub(crate) fn request(m: &[u8], c: Cursor) -> Item
    ensures { result ≡ request_of m.now c }
{
    let s = need(m, c, 0x30);
    let q = need(m, enter(s), 0x30);
    let n = small_integer(m, enter(q));
    Item {
        cur: leave(s, leave(q, n)),
        entry: Entry {
            number: value(m, n),
            request: whole_span(c, s),
            ..NO_ENTRY
        },
    }
}

// CertOrEncCert: the span is the plain certificate, or none.
#[tactic(auto, unfolding(crate::specs::Entries::choice_of))]
fn choice(m: &[u8], c: Cursor) -> Cursor
    ensures { result ≡ choice_of m.now c }
{
    if tag_at(m, c) == 0xA0 {
        around(m, c, 0xA0, |i| need(m, i, 0x30))
    } else {
        none(around(m, c, 0xA1, |i| any(m, i)))
    }
}

// CertifiedKeyPair: the span is the plain certificate, or none.
#[tactic(auto, unfolding(crate::specs::Entries::key_pair))]
fn key_pair(m: &[u8], c: Cursor) -> Cursor
    ensures { result ≡ key_pair m.now c }
{
    let s = need(m, c, 0x30);
    let k = choice(m, enter(s));
    let p = any_field(m, k, 0xA0);
    let q = any_field(m, p, 0xA1);
    let d = done(q);
    found(leave(s, d), leave(k, d))
}

#[tactic(auto, unfolding(crate::specs::Entries::maybe_key_pair))]
fn maybe_key_pair(m: &[u8], c: Cursor) -> Cursor
    ensures { result ≡ maybe_key_pair m.now c }
{
    if tag_at(m, c) == 0x30 {
        key_pair(m, c)
    } else {
        none(c)
    }
}

// CertResponse.
#[tactic(auto, unfolding(crate::specs::Entries::response_of))]
fn response(m: &[u8], c: Cursor) -> Item
    ensures { result ≡ response_of m.now c }
{
    let s = need(m, c, 0x30);
    let n = small_integer(m, enter(s));
    let i = status_info(m, n);
    let k = maybe_key_pair(m, i.cur);
    let r = maybe(m, k, 0x04);
    Item {
        cur: leave(s, done(r)),
        entry: Entry {
            number: value(m, n),
            status: i.status,
            certificate: found_span(k),
            ..NO_ENTRY
        },
    }
}

// CertStatus.
#[tactic(auto, unfolding(crate::specs::Entries::cert_status_of))]
fn cert_status(m: &[u8], c: Cursor) -> Item
    ensures { result ≡ cert_status_of m.now c }
{
    let s = need(m, c, 0x30);
    let h = need(m, enter(s), 0x04);
    let n = small_integer(m, h);
    let i = maybe_status(m, n);
    let a = typed_field(m, i.cur, 0xA0);
    Item {
        cur: leave(s, done(a)),
        entry: Entry {
            number: value(m, n),
            status: i.status,
            cert_hash: found_span(h),
            hash_alg: found_span(a),
            ..NO_ENTRY
        },
    }
}

#[tactic(auto, unfolding(crate::specs::Entries::entry_of))]
fn entry_of(m: &[u8], c: Cursor, what: EntryKind) -> Item
    ensures { result ≡ entry_of m.now what c }
{
    match what {
        EntryKind::Request => request(m, c),
        EntryKind::Response => response(m, c),
        EntryKind::Status => cert_status(m, c),
    }
}

fn no_entries(c: Cursor) -> Entries
    ensures { result ≡ no_entries c }
{
    Entries {
        cur: c,
        count: 0,
        last: NO_ENTRY,
    }
}

fn next_entry(m: &[u8], e: Entries, what: EntryKind) -> Entries
    requires { e.count + 1 < 2 ^ 64 }
    ensures { result ≡ next m.now what e }
{
    let i = entry_of(m, e.cur, what);
    Entries {
        cur: i.cur,
        count: e.count + 1,
        last: i.entry,
    }
}

// Entries one after another up to the parent's end. A loop beside `parts::all`, as one for both needs a trait for where the cursor stands.
#[tactic(auto, using(crate::proofs::EntryLaws::entry_by_entry))]
pub(crate) fn read_entries(m: &[u8], c: Cursor, what: EntryKind) -> Entries
    ensures { result ≡ entries_of m.now what c }
{
    let mut e = no_entries(c);
    while more(e.cur) {
        e = next_entry(m, e, what);
    }
    e
}

// The only entry; nothing where there is none or more than one.
pub(crate) fn only(e: Entries) -> Entry
    ensures { result ≡ only_of e }
{
    if e.count == 1 { e.last } else { NO_ENTRY }
}
