// The grammar of a PKIMessage (RFC 9810) as document 01 takes it: where each part stands, or where the grammar is broken.
#![tactic(auto)]

pub mod alone;
mod cursor;
mod entries;
mod parts;
mod pki_body;
mod pki_header;
pub mod pki_message;

ghost use Rattle.std.specs.Prelude.{◌≡◌};
ghost use Rattle.grammar.specs.Span.{part_of};

use der::Offset;

// A part of the message. An absent one starts at 0, where no part but the whole message can start, and has no length.
#[derive(Clone, Copy)]
pub struct Span {
    pub start: Offset,
    pub len: usize,
}

// PKIHeader. Names, protectionAlg, freeText and generalInfo are whole elements, the other spans contents.
#[derive(Clone, Copy)]
pub struct Header {
    // pvno in 32 bits of two's complement
    pub version: u32,
    pub sender: Span,
    pub recipient: Span,
    pub message_time: Span,
    pub protection_alg: Span,
    pub sender_kid: Span,
    pub recip_kid: Span,
    pub transaction_id: Span,
    pub sender_nonce: Span,
    pub recip_nonce: Span,
    pub free_text: Span,
    pub general_info: Span,
}

// What the only entry of a body says. All of it is zero or absent where there is none or more than one, but for the status of an
// error message and the request of a p10cr, which have no entries.
#[derive(Clone, Copy)]
pub struct Entry {
    // certReqId in 32 bits of two's complement
    pub number: u32,
    // status in 32 bits of two's complement, where there is a PKIStatusInfo
    pub status: Option<u32>,
    // a content
    pub cert_hash: Span,
    // whole elements
    pub hash_alg: Span,
    pub certificate: Span,
    pub request: Span,
}

// PKIBody: its kind is the number of its tag, as the definition `body_of` has it. `ca_pubs` is a whole element.
#[derive(Clone, Copy)]
pub struct Body {
    pub kind: u8,
    pub entries: usize,
    pub ca_pubs: Span,
    pub entry: Entry,
}

// PKIMessage: four whole elements, and what the first two say.
#[derive(Clone, Copy)]
pub struct Message {
    pub header_span: Span,
    pub body_span: Span,
    pub protection: Span,
    pub extra_certs: Span,
    pub header: Header,
    pub body: Body,
}

// The part of the message that a span names: as much of it as the message has.
pub fn part_of(message: &[u8], span: Span) -> &[u8]
    ensures { result.now ≡ part_of message.now span }
{
    let from = span.start.0.min(message.len());
    let rest = &message[from..];
    rest.get(..span.len).unwrap_or(rest)
}
