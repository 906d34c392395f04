// Which states take what: a function for each table of the definitions.
//
// A must-fail edit names the text of one line, which has to stand in its file just once: so the state that is to be refused
// has a name.
ghost use Rattle.std.specs.Prelude.{◌≡◌};
ghost use Rattle.protocol.specs.Table.{is_free};
ghost use Rattle.protocol.specs.States.{is_asked, is_granted, has_sent, settled_by, settled_state, is_confirmed, has_hash, may_issue, may_refuse, may_lapse, may_close};

use protocol::{Transaction, TransactionState};

pub(crate) fn is_free(s: TransactionState) -> bool
    ensures { result ≡ is_free s }
{
    matches!(s, TransactionState::Free)
}

fn is_asked(s: TransactionState) -> bool
    ensures { result ≡ is_asked s }
{
    matches!(s, TransactionState::Asked)
}

pub(crate) fn is_granted(s: TransactionState) -> bool
    ensures { result ≡ is_granted s }
{
    matches!(s, TransactionState::Granted)
}

pub(crate) fn has_sent(s: TransactionState) -> bool
    ensures { result ≡ has_sent s }
{
    !matches!(s, TransactionState::Free | TransactionState::Asked)
}

// Its hash is set.
pub(crate) fn has_hash(held: Transaction) -> bool
    ensures { result ≡ has_hash held }
{
    matches!(
        held.state,
        TransactionState::Granted
            | TransactionState::Confirmed
            | TransactionState::Declined
            | TransactionState::Lapsed
    )
}

pub(crate) fn settled_by(s: TransactionState, status: u32) -> bool
    ensures { result ≡ settled_by s status }
{
    match s {
        TransactionState::Confirmed => status == 0,
        TransactionState::Declined => status == 2,
        _ => false,
    }
}

pub(crate) fn settled_state(status: u32) -> TransactionState
    ensures { result ≡ settled_state status }
{
    if status == 0 {
        TransactionState::Confirmed
    } else {
        TransactionState::Declined
    }
}

// issue
pub(crate) fn may_issue(held: Transaction) -> bool
    ensures { result ≡ may_issue held }
{
    is_asked(held.state)
}

// refuse
pub(crate) fn may_refuse(held: Transaction) -> bool
    ensures { result ≡ may_refuse held }
{
    let refused = held.state;
    is_asked(refused)
}

// lapse
pub(crate) fn may_lapse(held: Transaction) -> bool
    ensures { result ≡ may_lapse held }
{
    is_granted(held.state)
}

// close
pub(crate) fn may_close(held: Transaction) -> bool
    ensures { result ≡ may_close held }
{
    matches!(
        held.state,
        TransactionState::Confirmed
            | TransactionState::Declined
            | TransactionState::Refused
            | TransactionState::Lapsed
    )
}

pub(crate) fn is_confirmed(s: TransactionState) -> bool
    ensures { result ≡ is_confirmed s }
{
    matches!(s, TransactionState::Confirmed)
}
