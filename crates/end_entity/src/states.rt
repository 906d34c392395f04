// The end entity's states (01's board states): which take what, and where they lead.
ghost use Rattle.std.specs.Prelude.{◌≡◌, ◌||◌};
ghost use Rattle.protocol.specs.States.{is_waiting, is_confirming, broken_state, assured, decided, decision};

use protocol::EnrolmentState;

// Whether a response is awaited.
pub(crate) fn is_waiting(state: EnrolmentState) -> bool
    ensures { result ≡ is_waiting state }
{
    matches!(state, EnrolmentState::Asked)
}

// Whether a confirmation was sent, and its pkiconf is awaited.
pub(crate) fn is_confirming(state: EnrolmentState) -> bool
    ensures { result ≡ is_confirming state }
{
    matches!(
        state,
        EnrolmentState::Confirming | EnrolmentState::Declining
    )
}

// Whether anything is awaited.
pub(crate) fn is_awaiting(state: EnrolmentState) -> bool
    ensures { result ≡ (is_waiting state || is_confirming state) }
{
    is_waiting(state) || is_confirming(state)
}

// Where an error or a time out leads.
pub(crate) fn broken_state(state: EnrolmentState) -> EnrolmentState
    ensures { result ≡ broken_state state }
{
    match state {
        EnrolmentState::Asked => EnrolmentState::Failed,
        EnrolmentState::Confirming | EnrolmentState::Declining => EnrolmentState::Unsettled,
        ended => ended,
    }
}

// Where a pkiconf leads.
pub(crate) fn assured_state(state: EnrolmentState) -> EnrolmentState
    ensures { result ≡ assured state }
{
    match state {
        EnrolmentState::Confirming => EnrolmentState::Sure,
        EnrolmentState::Declining => EnrolmentState::Declined,
        other => other,
    }
}

// Where the host's decision on a certificate leads.
pub(crate) fn decided_state(accept: bool) -> EnrolmentState
    ensures { result ≡ decided accept }
{
    if accept {
        EnrolmentState::Confirming
    } else {
        EnrolmentState::Declining
    }
}

// The status of the certConf that tells the decision.
pub(crate) fn decision_status(accept: bool) -> u32
    ensures { result ≡ decision accept }
{
    if accept { 0 } else { 2 }
}
