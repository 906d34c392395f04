// The messages that the ends give to be sent (01's orders), each with all it carries.
#![tactic(auto)]

ghost use Rattle.std.specs.Prelude.{◌≡◌};
ghost use Rattle.protocol.specs.Outgoing.{no_contents, with_status, with_hash, with_failure, with_number, silent, request_out, answer_out, response_out, cert_conf_out, pki_conf_out, error_out};

use protocol::kinds::{CERT_CONF, ERROR, PKI_CONF, request_number, response_to};
use protocol::{
    FailureInfo, FreshNonce, Hash, Nonce, Outgoing, OutgoingContents, TransactionId, no_hash,
    no_id, no_nonce,
};

// The PKIStatus of an error (RFC 9810 5.2.3).
const REJECTION: u32 = 2;

// No status, no hash, no bit, no number.
fn blank() -> OutgoingContents
    ensures { result ≡ no_contents }
{
    OutgoingContents {
        has_status: false,
        status: 0,
        hash: no_hash(),
        failure: None,
        has_number: false,
        number: 0,
    }
}

fn with_status(contents: OutgoingContents, status: u32) -> OutgoingContents
    ensures { result ≡ with_status status contents }
{
    OutgoingContents {
        has_status: true,
        status,
        ..contents
    }
}

fn with_hash(contents: OutgoingContents, hash: Hash) -> OutgoingContents
    ensures { result ≡ with_hash hash contents }
{
    OutgoingContents { hash, ..contents }
}

fn with_failure(contents: OutgoingContents, failure: FailureInfo) -> OutgoingContents
    ensures { result ≡ with_failure failure contents }
{
    OutgoingContents {
        failure,
        ..contents
    }
}

fn with_number(contents: OutgoingContents, number: u32) -> OutgoingContents
    ensures { result ≡ with_number number contents }
{
    OutgoingContents {
        has_number: true,
        number,
        ..contents
    }
}

// What stands in an answer that sends nothing.
#[tactic(auto, unfolding(protocol::specs::Outgoing::silent))]
pub fn silent() -> Outgoing
    ensures { result ≡ silent }
{
    Outgoing {
        kind: 0,
        id: no_id(),
        sender_nonce: no_nonce(),
        has_recip_nonce: false,
        recip_nonce: no_nonce(),
        contents: blank(),
    }
}

// ir, cr, p10cr or kur: it answers none.
#[tactic(auto, unfolding(protocol::specs::Outgoing::silent))]
pub fn request(request: u8, id: TransactionId, fresh: FreshNonce) -> Outgoing
    ensures { result ≡ request_out request id fresh }
{
    Outgoing {
        kind: request,
        id,
        sender_nonce: fresh.nonce(),
        ..silent()
    }
}

// A message that answers one with this senderNonce.
fn answer(
    kind: u8,
    id: TransactionId,
    fresh: FreshNonce,
    answered: Nonce,
    contents: OutgoingContents,
) -> Outgoing
    ensures { result ≡ answer_out kind id fresh answered contents }
{
    Outgoing {
        kind,
        id,
        sender_nonce: fresh.nonce(),
        has_recip_nonce: true,
        recip_nonce: answered,
        contents,
    }
}

// ip, cp or kup, to a request of this kind
pub fn response(
    request: u8,
    id: TransactionId,
    fresh: FreshNonce,
    answered: Nonce,
    status: u32,
) -> Outgoing
    ensures { result ≡ response_out request id fresh answered status }
{
    let decided = with_status(blank(), status);
    let contents = with_number(decided, request_number(request));
    answer(response_to(request), id, fresh, answered, contents)
}

// certConf, in an enrolment of this kind
pub fn cert_conf(
    request: u8,
    id: TransactionId,
    fresh: FreshNonce,
    answered: Nonce,
    status: u32,
    hash: Hash,
) -> Outgoing
    ensures { result ≡ cert_conf_out request id fresh answered status hash }
{
    let confirmed = with_hash(with_status(blank(), status), hash);
    let contents = with_number(confirmed, request_number(request));
    answer(CERT_CONF, id, fresh, answered, contents)
}

// pkiconf
pub fn pki_conf(id: TransactionId, fresh: FreshNonce, answered: Nonce) -> Outgoing
    ensures { result ≡ pki_conf_out id fresh answered }
{
    answer(PKI_CONF, id, fresh, answered, blank())
}

// error, with status 2
pub fn error(
    id: TransactionId,
    fresh: FreshNonce,
    answered: Nonce,
    failure: FailureInfo,
) -> Outgoing
    ensures { result ≡ error_out id fresh answered failure }
{
    let rejected = with_status(blank(), REJECTION);
    answer(ERROR, id, fresh, answered, with_failure(rejected, failure))
}
