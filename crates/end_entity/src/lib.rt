// The end entity (01's board end): its calls on one enrolment. The start, a message, and a time out.
#![tactic(auto)]

mod answers;
mod rows;
mod states;

ghost use Rattle.std.specs.Prelude.{◌≡◌};
ghost use Rattle.protocol.specs.Bytes.{as_nonce};
ghost use Rattle.protocol.specs.Message.{Fields, fields_of, status_or0};
ghost use Rattle.protocol.specs.Refusals.{pass, lowest_row};
ghost use Rattle.protocol.specs.EndEntityRows.{end_entity_rows};
ghost use Rattle.protocol.specs.EndEntity.{end_entity_start, after_refusal, end_entity_checked, end_entity_message, end_entity_time_out};

use crate::answers::{confirm, done, moved, refused, started, unread};
use crate::rows::lowest_refusal;
use crate::states::{assured_state, broken_state, is_awaiting};
use grammar::Message;
use incoming::rows::{fault_of, status_or_0};
use message::read;
use parts::nonce_of;
use protocol::kinds::{ERROR, PKI_CONF, is_response, is_starting_kind};
use protocol::{
    EndEntityAnswer, EndEntityInput, Enrolment, EnrolmentState, FreshNonce, Nonce, TransactionId,
};

// Starts an enrolment by a request of this kind, with the id and the nonce that the host drew.
#[tactic(auto, unfolding(protocol::specs::EndEntity::end_entity_start))]
pub fn start(kind: u8, id: TransactionId, nonce: FreshNonce) -> EndEntityAnswer
    ensures { result ≡ end_entity_start kind id nonce }
{
    if is_starting_kind(kind) {
        return EndEntityAnswer {
            outgoing: Some(outgoing::request(kind, id, nonce)),
            ..done(started(kind, id, nonce))
        };
    }
    refused(32, Enrolment::none())
}

// The enrolment after a refused message, as it was: the one place for an exception.
#[tactic(auto, unfolding(protocol::specs::EndEntity::after_refusal))]
fn after_refusal(number: u8, bytes: &[u8], m: Message, enrolment: Enrolment) -> Enrolment
    ensures { result ≡ after_refusal number (fields_of bytes.now m) enrolment }
{
    enrolment
}

// A message that no row refuses, by its kind: of any with this kind, status and senderNonce. Of another kind none comes
// here.
#[tactic(auto, unfolding(protocol::specs::EndEntity::end_entity_checked))]
fn taken(
    enrolment: Enrolment,
    input: EndEntityInput,
    kind: u8,
    status: u32,
    answered: Nonce,
) -> EndEntityAnswer
    ensures { (m : Fields) → m.kind ≡ kind → status_or0 m.status ≡ status → as_nonce m.sender_nonce ≡ answered → result ≡ end_entity_checked pass enrolment input m }
{
    if kind == PKI_CONF {
        return moved(enrolment, assured_state(enrolment.state));
    }
    if kind == ERROR {
        return moved(enrolment, broken_state(enrolment.state));
    }
    if is_response(kind) {
        if status == 2 {
            return moved(enrolment, EnrolmentState::Failed);
        }
        return confirm(enrolment, input, answered);
    }
    refused(8, enrolment)
}

// A message that reads: refused by the table's lowest row, or taken.
fn checked(enrolment: Enrolment, bytes: &[u8], m: Message, input: EndEntityInput) -> EndEntityAnswer
    ensures { result ≡ end_entity_checked (lowest_row (end_entity_rows enrolment input.good (fields_of bytes.now m))) enrolment input (fields_of bytes.now m) }
{
    if let Some(number) = lowest_refusal(enrolment, bytes, m, input.good) {
        return refused(number, after_refusal(number, bytes, m, enrolment));
    }
    let answered = nonce_of(bytes, m.header.sender_nonce);
    let status = status_or_0(m.body.entry);
    taken(enrolment, input, m.body.kind, status, answered)
}

// A message, with what the host says of it.
pub fn message(enrolment: Enrolment, bytes: &[u8], input: EndEntityInput) -> EndEntityAnswer
    ensures { result ≡ end_entity_message enrolment input bytes.now }
{
    let reading = read(bytes);
    let Ok(m) = reading else {
        return unread(enrolment, fault_of(reading));
    };
    checked(enrolment, bytes, m, input)
}

// The host waited long enough.
#[tactic(auto, unfolding(protocol::specs::EndEntity::end_entity_time_out))]
pub fn time_out(enrolment: Enrolment) -> EndEntityAnswer
    ensures { result ≡ end_entity_time_out enrolment }
{
    if is_awaiting(enrolment.state) {
        return moved(enrolment, broken_state(enrolment.state));
    }
    refused(31, enrolment)
}
