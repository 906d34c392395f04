// An answer in lent bytes: how the call ended, the reader's fault, the slot, and what is to be sent.
ghost use Rattle.std.specs.Prelude.{◌≡◌, ◌≤◌, length};
ghost use Rattle.packed.specs.Bytes.{Placed, fits_at, pack_at};
ghost use Rattle.packed.specs.Places.{answer_fault_at, answer_own_at, fault_part_bytes};
ghost use Rattle.packed.specs.Outgoing.{outgoing_bytes, pack_outgoing};
ghost use Rattle.packed.specs.Answer.{outcome_number, pack_outcome, pack_fault, slot_byte, sent_or_silent, registrar_answer_bytes, pack_registrar_answer, end_entity_answer_bytes, pack_end_entity_answer};

use crate::bytes::{put, put_flag};
use crate::places;
use crate::sent::{failure_number, put_outgoing};
use message::ReadFault;
use protocol::{EndEntityAnswer, Outcome, Outgoing, RegistrarAnswer, Slot};

pub const REGISTRAR_ANSWER_BYTES: usize = places::REGISTRAR_END;

pub const END_ENTITY_ANSWER_BYTES: usize = places::END_ENTITY_END;

// 0 done, 1 again, 2 refused: the C interface.
pub fn outcome_number(o: Outcome) -> u8
    ensures { result ≡ outcome_number o }
{
    match o {
        Outcome::Done => 0,
        Outcome::Again => 1,
        Outcome::Refused(_, _) => 2,
    }
}

// How the call ended, as the C interface has it: that, the refusal's number (0: none) and the bit (255: none).
#[tactic(auto, unfolding(crate::specs::Answer::pack_outcome))]
fn outcome_bytes(o: Outcome) -> [u8; 3]
    ensures { result ≡ pack_outcome o }
{
    match o {
        Outcome::Done | Outcome::Again => [outcome_number(o), 0, 255],
        Outcome::Refused(n, f) => [outcome_number(o), n, failure_number(f)],
    }
}

fn put_fault(bytes: &mut [u8], f: ReadFault)
    requires { answer_own_at ≤ length bytes.old }
    ensures { Placed answer_fault_at fault_part_bytes (pack_fault f) bytes.old bytes.new }
{
    bytes[places::ANSWER_FAULT] = f.number;
    // `as`: std has no `From<usize>` for u64.
    put(bytes, places::ANSWER_OFFSET, &(f.at.0 as u64).to_be_bytes());
    bytes[places::ANSWER_RULE] = f.rule;
}

// 255 stands for all past it, which no table has.
fn slot_byte(s: Slot) -> u8
    ensures { result ≡ slot_byte s.0 }
{
    u8::try_from(s.0).unwrap_or(255)
}

// The message, or what stands where there is none, as the first bytes.
fn put_sent(bytes: &mut [u8], o: &Option<Outgoing>)
    requires { outgoing_bytes ≤ length bytes.old }
    ensures { Placed 0 outgoing_bytes (pack_outgoing (sent_or_silent o.now)) bytes.old bytes.new }
{
    match o {
        Some(sent) => put_outgoing(bytes, sent),
        None => put_outgoing(bytes, &outgoing::silent()),
    }
}

// The answer as the first bytes. False, with nothing changed, where there is no room for it.
pub fn pack_registrar_answer(bytes: &mut [u8], a: RegistrarAnswer) -> bool
    ensures { (result ≡ fits_at 0 registrar_answer_bytes bytes.old) × (bytes.new ≡ pack_at 0 registrar_answer_bytes (pack_registrar_answer a) bytes.old) }
{
    if bytes.len() < REGISTRAR_ANSWER_BYTES {
        return false;
    }
    put(bytes, places::ANSWER_CODE, &outcome_bytes(a.outcome));
    put_fault(bytes, a.fault);
    bytes[places::REGISTRAR_SLOT] = slot_byte(a.slot);
    put_flag(bytes, places::REGISTRAR_SENDS, a.outgoing.is_some());
    put_sent(&mut bytes[places::REGISTRAR_OUTGOING..], &a.outgoing);
    true
}

// The answer as the first bytes. False, with nothing changed, where there is no room for it.
pub fn pack_end_entity_answer(bytes: &mut [u8], a: EndEntityAnswer) -> bool
    ensures { (result ≡ fits_at 0 end_entity_answer_bytes bytes.old) × (bytes.new ≡ pack_at 0 end_entity_answer_bytes (pack_end_entity_answer a) bytes.old) }
{
    if bytes.len() < END_ENTITY_ANSWER_BYTES {
        return false;
    }
    put(bytes, places::ANSWER_CODE, &outcome_bytes(a.outcome));
    put_fault(bytes, a.fault);
    put_flag(bytes, places::END_ENTITY_SENDS, a.outgoing.is_some());
    put_sent(&mut bytes[places::END_ENTITY_OUTGOING..], &a.outgoing);
    true
}
