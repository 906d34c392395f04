// The end entity's answers, each made from a plainer one.
ghost use Rattle.std.specs.Prelude.{◌≡◌};
ghost use Rattle.protocol.specs.EndEntity.{enrolment_refused, enrolment_unread, enrolment_moved, in_state, started_enrolment, confirmed_enrolment, confirming};

use crate::states::{decided_state, decision_status};
use incoming::rows::{bit_of, no_fault, read_refusal};
use message::ReadFault;
use protocol::{
    EndEntityAnswer, EndEntityInput, Enrolment, EnrolmentState, FreshNonce, Nonce, Outcome,
    TransactionId, no_hash, no_nonce,
};

// Done, with nothing to send.
pub(crate) fn done(enrolment: Enrolment) -> EndEntityAnswer
    ensures { result ≡ enrolment_moved enrolment }
{
    EndEntityAnswer {
        outcome: Outcome::Done,
        fault: no_fault(),
        outgoing: None,
        enrolment,
    }
}

// Refused, with nothing to send.
pub(crate) fn refused(number: u8, enrolment: Enrolment) -> EndEntityAnswer
    ensures { result ≡ enrolment_refused number enrolment }
{
    EndEntityAnswer {
        outcome: Outcome::Refused(number, bit_of(number, false)),
        ..done(enrolment)
    }
}

// The bytes do not read.
pub(crate) fn unread(enrolment: Enrolment, fault: ReadFault) -> EndEntityAnswer
    ensures { result ≡ enrolment_unread fault enrolment }
{
    EndEntityAnswer {
        fault,
        ..refused(read_refusal(fault), enrolment)
    }
}

// The enrolment is in another state, and nothing is sent.
pub(crate) fn moved(enrolment: Enrolment, state: EnrolmentState) -> EndEntityAnswer
    ensures { result ≡ enrolment_moved (in_state enrolment state) }
{
    done(Enrolment { state, ..enrolment })
}

// The enrolment of a start that is not refused.
pub(crate) fn started(kind: u8, id: TransactionId, nonce: FreshNonce) -> Enrolment
    ensures { result ≡ started_enrolment kind id nonce }
{
    Enrolment {
        id,
        kind,
        last: nonce.nonce(),
        taken: no_nonce(),
        hash: no_hash(),
        state: EnrolmentState::Asked,
    }
}

// The host's hash and nonce, and the nonce of the response, are kept.
fn confirmed(enrolment: Enrolment, input: EndEntityInput, answered: Nonce) -> Enrolment
    ensures { result ≡ confirmed_enrolment enrolment input.accept input.hash input.nonce answered }
{
    Enrolment {
        last: input.nonce.nonce(),
        taken: answered,
        hash: input.hash,
        state: decided_state(input.accept),
        ..enrolment
    }
}

// The certificate is accepted or not, and the certConf that says so is sent.
pub(crate) fn confirm(
    enrolment: Enrolment,
    input: EndEntityInput,
    answered: Nonce,
) -> EndEntityAnswer
    ensures { result ≡ confirming enrolment input.accept input.hash input.nonce answered }
{
    let Enrolment { id, kind, .. } = enrolment;
    let status = decision_status(input.accept);
    let sent = outgoing::cert_conf(kind, id, input.nonce, answered, status, input.hash);
    EndEntityAnswer {
        outgoing: Some(sent),
        ..done(confirmed(enrolment, input, answered))
    }
}
