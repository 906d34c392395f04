// A message to be sent, in lent bytes.
ghost use Rattle.std.specs.Prelude.{◌≡◌, ◌≤◌, length};
ghost use Rattle.packed.specs.Bytes.{Placed};
ghost use Rattle.packed.specs.Places.{outgoing_contents_at, contents_part_bytes};
ghost use Rattle.packed.specs.Outgoing.{failure_number, failure_of, outgoing_bytes, pack_names, pack_contents, pack_outgoing, outgoing_contents_of, outgoing_of, unpack_outgoing};

use crate::bytes::{get, get_flag, put, put_flag};
use crate::places;
use protocol::{FailureInfo, Hash, Nonce, Outgoing, OutgoingContents, TransactionId};

pub const OUTGOING_BYTES: usize = places::OUTGOING_END;

// A PKIFailureInfo bit as the C interface has it; 255: none.
pub(crate) fn failure_number(f: FailureInfo) -> u8
    ensures { result ≡ failure_number f }
{
    f.unwrap_or(255)
}

// Kind, id and nonces.
fn put_names(bytes: &mut [u8], o: &Outgoing)
    requires { outgoing_contents_at ≤ length bytes.old }
    ensures { Placed 0 outgoing_contents_at (pack_names o.now) bytes.old bytes.new }
{
    bytes[places::OUTGOING_KIND] = o.kind;
    put(bytes, places::OUTGOING_ID, &o.id.bytes);
    put(bytes, places::OUTGOING_SENDER_NONCE, &o.sender_nonce.bytes);
    put_flag(bytes, places::OUTGOING_HAS_RECIP_NONCE, o.has_recip_nonce);
    put(bytes, places::OUTGOING_RECIP_NONCE, &o.recip_nonce.bytes);
}

// What only some kinds carry, as the first bytes.
fn put_contents(bytes: &mut [u8], c: &OutgoingContents)
    requires { contents_part_bytes ≤ length bytes.old }
    ensures { Placed 0 contents_part_bytes (pack_contents c.now) bytes.old bytes.new }
{
    let start = places::OUTGOING_HAS_STATUS;
    let status = c.status;
    let number = c.number;
    put_flag(bytes, 0, c.has_status);
    put(
        bytes,
        places::OUTGOING_STATUS - start,
        &status.to_be_bytes(),
    );
    put(bytes, places::OUTGOING_HASH - start, &c.hash.bytes);
    bytes[places::OUTGOING_FAILURE - start] = failure_number(c.failure);
    put_flag(bytes, places::OUTGOING_HAS_NUMBER - start, c.has_number);
    put(
        bytes,
        places::OUTGOING_NUMBER - start,
        &number.to_be_bytes(),
    );
}

// The message as the first bytes.
pub(crate) fn put_outgoing(bytes: &mut [u8], o: &Outgoing)
    requires { outgoing_bytes ≤ length bytes.old }
    ensures { Placed 0 outgoing_bytes (pack_outgoing o.now) bytes.old bytes.new }
{
    put_names(bytes, o);
    put_contents(&mut bytes[places::OUTGOING_HAS_STATUS..], &o.contents);
}

fn failure_of(n: u8) -> FailureInfo
    ensures { result ≡ failure_of n }
{
    (n != 255).then_some(n)
}

// What only some kinds carry, of the message that the bytes hold.
fn get_contents(bytes: &[u8]) -> OutgoingContents
    requires { outgoing_bytes ≤ length bytes.now }
    ensures { result ≡ outgoing_contents_of bytes.now }
{
    OutgoingContents {
        has_status: get_flag(bytes, places::OUTGOING_HAS_STATUS),
        status: u32::from_be_bytes(get(bytes, places::OUTGOING_STATUS)),
        hash: Hash {
            bytes: get(bytes, places::OUTGOING_HASH),
        },
        failure: failure_of(bytes[places::OUTGOING_FAILURE]),
        has_number: get_flag(bytes, places::OUTGOING_HAS_NUMBER),
        number: u32::from_be_bytes(get(bytes, places::OUTGOING_NUMBER)),
    }
}

#[tactic(auto, unfolding(crate::specs::Outgoing::outgoing_of))]
fn get_outgoing(bytes: &[u8]) -> Outgoing
    requires { outgoing_bytes ≤ length bytes.now }
    ensures { result ≡ outgoing_of bytes.now }
{
    Outgoing {
        kind: bytes[places::OUTGOING_KIND],
        id: TransactionId {
            bytes: get(bytes, places::OUTGOING_ID),
        },
        sender_nonce: Nonce {
            bytes: get(bytes, places::OUTGOING_SENDER_NONCE),
        },
        has_recip_nonce: get_flag(bytes, places::OUTGOING_HAS_RECIP_NONCE),
        recip_nonce: Nonce {
            bytes: get(bytes, places::OUTGOING_RECIP_NONCE),
        },
        contents: get_contents(bytes),
    }
}

// The message that `bytes` hold, where they are exactly as long as one.
#[tactic(auto, unfolding(crate::specs::Outgoing::unpack_outgoing))]
pub fn unpack_outgoing(bytes: &[u8]) -> Option<Outgoing>
    ensures { result ≡ unpack_outgoing bytes.now }
{
    if bytes.len() == OUTGOING_BYTES {
        Some(get_outgoing(bytes))
    } else {
        None
    }
}
