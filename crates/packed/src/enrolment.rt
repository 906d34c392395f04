// An enrolment in lent bytes.
ghost use Rattle.std.specs.Prelude.{◌≡◌, ◌≤◌, cond, eqb, ltb, length, Some, None};
ghost use Rattle.packed.specs.Bytes.{Placed};
ghost use Rattle.packed.specs.Enrolment.{enrolment_state_number, enrolment_state_of, enrolment_bytes, pack_enrolment, unpack_enrolment, pack_enrolment_in};

use crate::bytes::{get, put};
use crate::places;
use protocol::{Enrolment, EnrolmentState, Hash, Nonce, TransactionId};

pub const ENROLMENT_BYTES: usize = places::ENROLMENT_END;

// No `From` for a state, nor `TryFrom` of one: the type is protocol's.
fn state_number(s: EnrolmentState) -> u8
    ensures { result ≡ enrolment_state_number s }
{
    match s {
        EnrolmentState::Asked => 0,
        EnrolmentState::Confirming => 1,
        EnrolmentState::Declining => 2,
        EnrolmentState::Sure => 3,
        EnrolmentState::Declined => 4,
        EnrolmentState::Failed => 5,
        EnrolmentState::Unsettled => 6,
    }
}

#[tactic(auto, unfolding(crate::specs::Enrolment::enrolment_state_of))]
fn state_of(n: u8) -> Option<EnrolmentState>
    ensures { result ≡ cond (ltb n 7) (Some (enrolment_state_of n)) None }
{
    match n {
        0 => Some(EnrolmentState::Asked),
        1 => Some(EnrolmentState::Confirming),
        2 => Some(EnrolmentState::Declining),
        3 => Some(EnrolmentState::Sure),
        4 => Some(EnrolmentState::Declined),
        5 => Some(EnrolmentState::Failed),
        6 => Some(EnrolmentState::Unsettled),
        _ => None,
    }
}

// The enrolment that `bytes` holds, where they are exactly as long as one and the state byte is a state.
#[tactic(auto, unfolding(crate::specs::Enrolment::unpack_enrolment, crate::specs::Enrolment::enrolment_of))]
pub fn unpack_enrolment(bytes: &[u8]) -> Option<Enrolment>
    ensures { result ≡ unpack_enrolment bytes.now }
{
    if bytes.len() != ENROLMENT_BYTES {
        return None;
    }
    let state = state_of(bytes[places::ENROLMENT_STATE])?;
    Some(Enrolment {
        id: TransactionId {
            bytes: get(bytes, places::ENROLMENT_ID),
        },
        kind: bytes[places::ENROLMENT_KIND],
        last: Nonce {
            bytes: get(bytes, places::ENROLMENT_LAST),
        },
        taken: Nonce {
            bytes: get(bytes, places::ENROLMENT_TAKEN),
        },
        hash: Hash {
            bytes: get(bytes, places::ENROLMENT_HASH),
        },
        state,
    })
}

fn put_enrolment(bytes: &mut [u8], x: &Enrolment)
    requires { enrolment_bytes ≤ length bytes.old }
    ensures { Placed 0 enrolment_bytes (pack_enrolment x.now) bytes.old bytes.new }
{
    put(bytes, places::ENROLMENT_ID, &x.id.bytes);
    bytes[places::ENROLMENT_KIND] = x.kind;
    put(bytes, places::ENROLMENT_LAST, &x.last.bytes);
    put(bytes, places::ENROLMENT_TAKEN, &x.taken.bytes);
    put(bytes, places::ENROLMENT_HASH, &x.hash.bytes);
    bytes[places::ENROLMENT_STATE] = state_number(x.state);
}

// The enrolment as bytes. False, with nothing changed, where `bytes` is not exactly as long as one.
#[inline(always)]
#[tactic(auto, unfolding(crate::specs::Enrolment::pack_enrolment_in))]
pub fn pack_enrolment(bytes: &mut [u8], enrolment: Enrolment) -> bool
    ensures { (result ≡ eqb (length bytes.old) enrolment_bytes) × (bytes.new ≡ pack_enrolment_in enrolment bytes.old) }
{
    if bytes.len() == ENROLMENT_BYTES {
        put_enrolment(bytes, &enrolment);
        true
    } else {
        false
    }
}
