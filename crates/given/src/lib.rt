// What a caller gives beside an order, as spans over bytes that it lends; and whether it fits.
#![tactic(auto)]

pub mod fits;
pub mod numbers;

use grammar::Span;

// What the caller gives beside the order: parts of bytes that it lends. An absent part starts at 0 and has no length, as in a reading, so that
// none starts at the first byte. Names, protectionAlg, freeText, generalInfo, request and certificate are whole elements, the others
// contents, of the protection the BIT STRING's.
#[derive(Clone, Copy)]
pub struct GivenSpans {
    // pvno in 32 bits of two's complement
    pub version: u32,
    pub sender: Span,
    pub recipient: Span,
    pub message_time: Span,
    pub protection_alg: Span,
    pub sender_kid: Span,
    pub recip_kid: Span,
    pub free_text: Span,
    pub general_info: Span,
    pub protection: Span,
    // the request message of an ir, cr or kur, or the certification request of a p10cr
    pub request: Span,
    // the certificate of an ip, cp or kup
    pub certificate: Span,
}
