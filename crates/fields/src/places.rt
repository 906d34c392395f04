// What a reading found, as numbers at fixed places of a lent array. The places are those of the C header.
ghost use Rattle.std.specs.Prelude.{◌≡◌};
ghost use Rattle.fields.specs.Fields.{put_number, put_span, put_names, put_ids, put_entry, put_body, put_message};

use grammar::{Body, Entry, Header, Message, Span};
use message::protected_length;

// A number at a place; nothing where the array has no such place.
#[tactic(auto, unfolding(crate::specs::Fields::put_number), using(crate::proofs::Stores::kept))]
pub(crate) fn put(fields: &mut [u64], at: usize, v: u64)
    ensures { fields.new ≡ put_number at v fields.old }
{
    // By index: after a slice's get_mut the check knows its length and no element.
    if at < fields.len() {
        fields[at] = v;
    }
}

#[tactic(auto, unfolding(crate::specs::Fields::put_span))]
fn put_span(fields: &mut [u64], a: usize, b: usize, s: Span)
    ensures { fields.new ≡ put_span a b s fields.old }
{
    put(fields, a, s.start.0 as u64);
    put(fields, b, s.len as u64);
}

#[tactic(auto, unfolding(crate::specs::Fields::put_names))]
fn put_names(fields: &mut [u64], h: Header)
    ensures { fields.new ≡ put_names h fields.old }
{
    put(fields, 1, u64::from(h.version));
    put_span(fields, 11, 12, h.sender);
    put_span(fields, 13, 14, h.recipient);
    put_span(fields, 15, 16, h.message_time);
    put_span(fields, 17, 18, h.protection_alg);
    put_span(fields, 19, 20, h.sender_kid);
    put_span(fields, 21, 22, h.recip_kid);
}

#[tactic(auto, unfolding(crate::specs::Fields::put_ids))]
fn put_ids(fields: &mut [u64], h: Header)
    ensures { fields.new ≡ put_ids h fields.old }
{
    put_span(fields, 23, 24, h.transaction_id);
    put_span(fields, 25, 26, h.sender_nonce);
    put_span(fields, 27, 28, h.recip_nonce);
    put_span(fields, 29, 30, h.free_text);
    put_span(fields, 31, 32, h.general_info);
}

#[tactic(auto, unfolding(crate::specs::Fields::put_entry))]
fn put_entry(fields: &mut [u64], e: Entry)
    ensures { fields.new ≡ put_entry e fields.old }
{
    put(fields, 35, u64::from(e.number));
    put(fields, 36, u64::from(e.status.is_some()));
    put(fields, 37, u64::from(e.status.unwrap_or(0)));
    put_span(fields, 38, 39, e.cert_hash);
    put_span(fields, 40, 41, e.hash_alg);
    put_span(fields, 42, 43, e.certificate);
    put_span(fields, 44, 45, e.request);
}

#[tactic(auto, unfolding(crate::specs::Fields::put_body))]
fn put_body(fields: &mut [u64], b: Body)
    ensures { fields.new ≡ put_body b fields.old }
{
    put(fields, 0, u64::from(b.kind));
    put(fields, 2, b.entries as u64);
    put_span(fields, 33, 34, b.ca_pubs);
    put_entry(fields, b.entry);
}

#[tactic(auto, unfolding(crate::specs::Fields::put_message, crate::specs::Fields::put_protected))]
pub(crate) fn put_message(fields: &mut [u64], m: Message)
    ensures { fields.new ≡ put_message m fields.old }
{
    put_span(fields, 3, 4, m.header_span);
    put_span(fields, 5, 6, m.body_span);
    put_span(fields, 7, 8, m.protection);
    put_span(fields, 9, 10, m.extra_certs);
    put_names(fields, m.header);
    put_ids(fields, m.header);
    put_body(fields, m.body);
    put(fields, 46, protected_length(m) as u64);
}
