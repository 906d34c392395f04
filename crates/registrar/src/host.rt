// The host's steps: issue, refuse, lapse and close. Each names its transaction by the id.
ghost use Rattle.std.specs.Prelude.{◌≡◌, set};
ghost use Rattle.protocol.specs.Table.{slot_of};
ghost use Rattle.protocol.specs.Registrar.{settled, responded, done_quietly, registrar_issue, registrar_refuse, registrar_lapse, registrar_close};
ghost use Rattle.registrar.specs.Steps.{response_answer, StepsBy};

use crate::answers::{done_quietly, done_sending, refused_quietly};
use crate::slots::{find, with_at};
use crate::states::{may_close, may_issue, may_lapse, may_refuse};
use protocol::{
    FreshNonce, Hash, Nonce, RegistrarAnswer, Slot, Transaction, TransactionId, TransactionState,
    TransactionTable,
};

// The transaction in another state, with another nonce taken.
pub(crate) fn settled(held: Transaction, state: TransactionState, taken: Nonce) -> Transaction
    ensures { result ≡ settled held state taken }
{
    Transaction {
        taken,
        state,
        ..held
    }
}

// The transaction in another state, with a response nonce sent and a hash.
fn responded(held: Transaction, state: TransactionState, sent: Nonce, hash: Hash) -> Transaction
    ensures { result ≡ responded held state sent hash }
{
    Transaction {
        sent,
        hash,
        state,
        ..held
    }
}

// The response to the transaction's request.
fn respond(
    table: TransactionTable,
    slot: Slot,
    held: Transaction,
    id: TransactionId,
    state: TransactionState,
    status: u32,
    nonce: FreshNonce,
    hash: Hash,
) -> RegistrarAnswer
    ensures { result ≡ response_answer table slot.0 held id state status nonce hash }
{
    let next = with_at(table, slot, responded(held, state, nonce.nonce(), hash));
    done_sending(
        slot,
        next,
        outgoing::response(held.kind, id, nonce, held.taken, status),
    )
}

// The transaction in the slot becomes `x`.
fn changed(table: TransactionTable, slot: Slot, x: Transaction) -> RegistrarAnswer
    ensures { result ≡ done_quietly slot.0 (set table.transactions slot.0 x) }
{
    done_quietly(slot, with_at(table, slot, x))
}

// A host's step: refused where the table has no such id (30), and where the transaction's state does not allow it (31).
fn host_step<M: Fn(Transaction) -> bool, A: FnOnce(Slot, Transaction) -> RegistrarAnswer>(
    table: TransactionTable,
    id: TransactionId,
    may: M,
    act: A,
) -> RegistrarAnswer
    requires testable { M.IsAlwaysCallable may }
    requires callable { A.IsAlwaysCallable act }
    ensures { StepsBy (M.post may) (A.post act (record { 0 = slot_of table.transactions id })) table id result }
{
    let Some((slot, held)) = find(table, id) else {
        return refused_quietly(30, table);
    };
    if !may(held) {
        return refused_quietly(31, table);
    }
    act(slot, held)
}

// Asked to Granted: the certificate with this hash is sent.
pub fn issue(
    table: TransactionTable,
    id: TransactionId,
    nonce: FreshNonce,
    hash: Hash,
) -> RegistrarAnswer
    ensures { result ≡ registrar_issue table id nonce hash }
{
    host_step(table, id, may_issue, |slot, held| {
        let granted = TransactionState::Granted;
        respond(table, slot, held, id, granted, 0, nonce, hash)
    })
}

// Asked to Refused: the request is rejected.
pub fn refuse(table: TransactionTable, id: TransactionId, nonce: FreshNonce) -> RegistrarAnswer
    ensures { result ≡ registrar_refuse table id nonce }
{
    host_step(table, id, may_refuse, |slot, held| {
        let refused = TransactionState::Refused;
        respond(table, slot, held, id, refused, 2, nonce, held.hash)
    })
}

// Granted to Lapsed: no confirmation came.
pub fn lapse(table: TransactionTable, id: TransactionId) -> RegistrarAnswer
    ensures { result ≡ registrar_lapse table id }
{
    host_step(table, id, may_lapse, |slot, held| {
        let lapsed = settled(held, TransactionState::Lapsed, held.taken);
        changed(table, slot, lapsed)
    })
}

// Confirmed, Declined, Refused or Lapsed to free.
pub fn close(table: TransactionTable, id: TransactionId) -> RegistrarAnswer
    ensures { result ≡ registrar_close table id }
{
    host_step(table, id, may_close, |slot, _| {
        changed(table, slot, Transaction::free())
    })
}
