// PKIHeader.
ghost use Rattle.std.specs.Prelude.{◌≡◌};
ghost use Rattle.grammar.specs.Header.{name_tag, name_of, names_of, ids_of, options_of, joined, header_of};

use crate::cursor::{Cursor, done, enter, fault_at, leave, need, small_integer, tag_at, value};
use crate::parts::{Each, field, found_span, sequence_field, typed_field, whole_span};
use crate::{Header, Span};

// The three parts that every header has.
#[derive(Clone, Copy)]
pub struct Names {
    pub cur: Cursor,
    pub version: u32,
    pub sender: Span,
    pub recipient: Span,
}

// The optional parts [0] to [3].
#[derive(Clone, Copy)]
pub struct Options {
    pub cur: Cursor,
    pub message_time: Span,
    pub protection_alg: Span,
    pub sender_kid: Span,
    pub recip_kid: Span,
}

// The optional parts [4] to [8].
#[derive(Clone, Copy)]
pub struct Ids {
    pub cur: Cursor,
    pub transaction_id: Span,
    pub sender_nonce: Span,
    pub recip_nonce: Span,
    pub free_text: Span,
    pub general_info: Span,
}

// The header, and the cursor past it: a struct for each part that is read, as definitions in specs/ name their fields.
#[derive(Clone, Copy)]
pub struct HeaderRead {
    pub cur: Cursor,
    pub header: Header,
}

#[tactic(auto, unfolding(crate::specs::Header::name_tag))]
pub(crate) fn name_tag(t: u8) -> bool
    ensures { result ≡ name_tag t }
{
    matches!(
        t,
        0xA0 | 0x81 | 0x82 | 0xA3 | 0xA4 | 0xA5 | 0x86 | 0x87 | 0x88
    )
}

// GeneralName.
#[tactic(auto, unfolding(crate::specs::Header::name_of))]
fn name(m: &[u8], c: Cursor) -> Cursor
    ensures { result ≡ name_of m.now c }
{
    let t = tag_at(m, c);
    if name_tag(t) {
        need(m, c, t)
    } else {
        fault_at(c)
    }
}

#[tactic(auto, unfolding(crate::specs::Header::names_of))]
fn read_names(m: &[u8], c: Cursor) -> Names
    ensures { result ≡ names_of m.now c }
{
    let v = small_integer(m, c);
    let s = name(m, v);
    let r = name(m, s);
    Names {
        cur: r,
        version: value(m, v),
        sender: whole_span(v, s),
        recipient: whole_span(s, r),
    }
}

#[tactic(auto, unfolding(crate::specs::Header::options_of))]
fn read_options(m: &[u8], c: Cursor) -> Options
    ensures { result ≡ options_of m.now c }
{
    let time = field(m, c, 0xA0, 0x18);
    let alg = typed_field(m, time, 0xA1);
    let sender = field(m, alg, 0xA2, 0x04);
    let recip = field(m, sender, 0xA3, 0x04);
    Options {
        cur: recip,
        message_time: found_span(time),
        protection_alg: found_span(alg),
        sender_kid: found_span(sender),
        recip_kid: found_span(recip),
    }
}

#[tactic(auto, unfolding(crate::specs::Header::ids_of))]
fn read_ids(m: &[u8], c: Cursor) -> Ids
    ensures { result ≡ ids_of m.now c }
{
    let id = field(m, c, 0xA4, 0x04);
    let sender = field(m, id, 0xA5, 0x04);
    let recip = field(m, sender, 0xA6, 0x04);
    let text = sequence_field(m, recip, 0xA7, Each::Text);
    let info = sequence_field(m, text, 0xA8, Each::Info);
    Ids {
        cur: info,
        transaction_id: found_span(id),
        sender_nonce: found_span(sender),
        recip_nonce: found_span(recip),
        free_text: found_span(text),
        general_info: found_span(info),
    }
}

#[tactic(auto, unfolding(crate::specs::Header::header_of))]
pub(crate) fn read_header(m: &[u8], c: Cursor) -> HeaderRead
    ensures { result ≡ header_of m.now c }
{
    let s = need(m, c, 0x30);
    let n = read_names(m, enter(s));
    let o = read_options(m, n.cur);
    let i = read_ids(m, o.cur);
    HeaderRead {
        cur: leave(s, done(i.cur)),
        header: join(n, o, i),
    }
}

fn join(n: Names, o: Options, i: Ids) -> Header
    ensures { result ≡ joined n o i }
{
    Header {
        version: n.version,
        sender: n.sender,
        recipient: n.recipient,
        message_time: o.message_time,
        protection_alg: o.protection_alg,
        sender_kid: o.sender_kid,
        recip_kid: o.recip_kid,
        transaction_id: i.transaction_id,
        sender_nonce: i.sender_nonce,
        recip_nonce: i.recip_nonce,
        free_text: i.free_text,
        general_info: i.general_info,
    }
}
