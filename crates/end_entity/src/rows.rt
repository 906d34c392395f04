// The rows of 01's table for a message at an end entity, in the table's order; rows 3 to 7 are those of both ends.
ghost use Rattle.std.specs.Prelude.{◌≡◌, not, ◌&&◌, ◌||◌, eqb};
ghost use Rattle.protocol.specs.Bytes.{is_id, is_nonce};
ghost use Rattle.protocol.specs.Message.{is_response, pki_conf, error_kind, response_to, request_number, is_present, optional_part, fields_of};
ghost use Rattle.protocol.specs.States.{is_waiting, is_confirming};
ghost use Rattle.protocol.specs.Refusals.{lowest_row};
ghost use Rattle.protocol.specs.EndEntityRows.{answer_rows, end_entity_rows};
ghost use Rattle.incoming.specs.Incoming.{number_of};

use crate::states::{is_awaiting, is_confirming, is_waiting};
use grammar::{Message, Span};
use incoming::rows::{first_row, head_refusal, status_or_0};
use parts::{is_id, is_nonce, is_present};
use protocol::kinds::{ERROR, PKI_CONF, is_response, request_number, response_to};
use protocol::{Enrolment, EnrolmentState};

// 8
fn other_answer(kind: u8, request: u8) -> bool
    ensures { result ≡ not (eqb kind pki_conf || eqb kind error_kind || eqb kind (response_to request)) }
{
    kind != PKI_CONF && kind != ERROR && kind != response_to(request)
}

// 15
fn not_one_response(kind: u8, entries: usize) -> bool
    ensures { result ≡ (is_response kind && not (eqb entries 1)) }
{
    is_response(kind) && entries != 1
}

// 16
fn other_number(kind: u8, entries: usize, number: u32, request: u8) -> bool
    ensures { result ≡ (is_response kind && eqb entries 1 && not (eqb number (request_number request))) }
{
    is_response(kind) && entries == 1 && number != request_number(request)
}

// 18, of the one response
fn bad_response_status(kind: u8, entries: usize, status: u32) -> bool
    ensures { result ≡ (is_response kind && eqb entries 1 && not (eqb status 0 || eqb status 1 || eqb status 2)) }
{
    is_response(kind) && entries == 1 && !matches!(status, 0 | 1 | 2)
}

// 18
fn bad_status(kind: u8, entries: usize, status: u32) -> bool
    ensures { result ≡ (is_response kind && eqb entries 1 && not (eqb status 0 || eqb status 1 || eqb status 2) || eqb kind error_kind && not (eqb status 2)) }
{
    bad_response_status(kind, entries, status) || kind == ERROR && status != 2
}

// 20
fn not_awaited(kind: u8, state: EnrolmentState) -> bool
    ensures { result ≡ (is_response kind && not (is_waiting state) || eqb kind pki_conf && not (is_confirming state) || eqb kind error_kind && not (is_waiting state || is_confirming state)) }
{
    match kind {
        PKI_CONF => !is_confirming(state),
        ERROR => !is_awaiting(state),
        _ => is_response(kind) && !is_waiting(state),
    }
}

// 21
fn no_certificate(kind: u8, status: u32, certificate: Span) -> bool
    ensures { result ≡ (is_response kind && not (eqb status 2) && not (is_present certificate)) }
{
    is_response(kind) && status != 2 && !is_present(certificate)
}

// The lowest of the rows 8 to 21 that applies.
#[tactic(auto, unfolding(protocol::specs::Message::fields_of))]
fn answer_refusal(enrolment: Enrolment, message: &[u8], m: Message) -> Option<u8>
    ensures { result ≡ number_of (lowest_row (answer_rows enrolment (fields_of message.now m))) }
{
    let kind = m.body.kind;
    let n = m.body.entries;
    let entry = m.body.entry;
    let status = status_or_0(entry);
    first_row(&[
        (8, other_answer(kind, enrolment.kind)),
        (12, !is_id(message, m.header.transaction_id, enrolment.id)),
        (14, !is_nonce(message, m.header.recip_nonce, enrolment.last)),
        (15, not_one_response(kind, n)),
        (16, other_number(kind, n, entry.number, enrolment.kind)),
        (18, bad_status(kind, n, status)),
        (20, not_awaited(kind, enrolment.state)),
        (21, no_certificate(kind, status, entry.certificate)),
    ])
}

// The lowest row of the table that applies.
pub(crate) fn lowest_refusal(
    enrolment: Enrolment,
    message: &[u8],
    m: Message,
    good: bool,
) -> Option<u8>
    ensures { result ≡ number_of (lowest_row (end_entity_rows enrolment good (fields_of message.now m))) }
{
    head_refusal(message, m, good).or_else(|| answer_refusal(enrolment, message, m))
}
