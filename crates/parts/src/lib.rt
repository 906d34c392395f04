// The parts of a message that the steps compare or keep: ids, nonces and hashes.
#![tactic(auto)]

ghost use Rattle.std.specs.Prelude.{◌≡◌};
ghost use Rattle.protocol.specs.Bytes.{same_bytes, same_id, is_id, is_nonce};
ghost use Rattle.grammar.specs.Span.{part_of};
ghost use Rattle.protocol.specs.Message.{is_present, optional_part};
ghost use Rattle.protocol.specs.Refusals.{not_sixteen};
ghost use Rattle.parts.specs.Parts.{sixteen_of};

use grammar::{Span, part_of};
use protocol::{Hash, Nonce, TransactionId};

// Whether the part is in the message.
pub fn is_present(span: Span) -> bool
    ensures { result ≡ is_present span }
{
    span.start.0 != 0
}

// Whether the part is absent, or has not exactly sixteen bytes.
pub fn not_sixteen(message: &[u8], span: Span) -> bool
    ensures { result ≡ not_sixteen (optional_part message.now span) }
{
    !is_present(span) || part_of(message, span).len() != 16
}

// The one comparison of bytes: ids, nonces and hashes are the same where these are.
#[tactic(auto, using(crate::proofs::Laws::same_is, std::proofs::lemmas::List::take_all))]
fn same_bytes(p: &[u8], q: &[u8]) -> bool
    ensures { result ≡ same_bytes p.now q.now }
{
    p == q
}

// The one equality of ids.
pub fn same_id(a: TransactionId, b: TransactionId) -> bool
    ensures { result ≡ same_id a b }
{
    same_bytes(&a.bytes, &b.bytes)
}

// Whether the part is there and is this id. It and is_nonce, and id_of and nonce_of, differ in the type: public contracts.
pub fn is_id(message: &[u8], span: Span, id: TransactionId) -> bool
    ensures { result ≡ is_id (optional_part message.now span) id }
{
    is_present(span) && same_bytes(part_of(message, span), &id.bytes)
}

// Whether the part is there and is this nonce.
pub fn is_nonce(message: &[u8], span: Span, nonce: Nonce) -> bool
    ensures { result ≡ is_nonce (optional_part message.now span) nonce }
{
    is_present(span) && same_bytes(part_of(message, span), &nonce.bytes)
}

// Whether the part has the bytes of this hash.
pub fn is_hash(message: &[u8], span: Span, hash: Hash) -> bool
    ensures { result ≡ same_bytes (part_of message.now span) hash.bytes }
{
    same_bytes(part_of(message, span), &hash.bytes)
}

// A copy of sixteen bytes; zeros where there are not exactly so many.
fn sixteen(p: &[u8]) -> [u8; 16]
    ensures { result ≡ sixteen_of p.now }
{
    p.try_into().unwrap_or([0; 16])
}

// The part as an id; zeros where it has not sixteen bytes.
pub fn id_of(message: &[u8], span: Span) -> TransactionId
    ensures { result.bytes ≡ sixteen_of (part_of message.now span) }
{
    TransactionId {
        bytes: sixteen(part_of(message, span)),
    }
}

// The part as a nonce; zeros where it has not sixteen bytes.
pub fn nonce_of(message: &[u8], span: Span) -> Nonce
    ensures { result.bytes ≡ sixteen_of (part_of message.now span) }
{
    Nonce {
        bytes: sixteen(part_of(message, span)),
    }
}
