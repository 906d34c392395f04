// A message at the registrar.
ghost use Rattle.std.specs.Prelude.{◌≡◌};
ghost use Rattle.protocol.specs.Message.{fields_of};
ghost use Rattle.protocol.specs.Table.{free_slot, put};
ghost use Rattle.protocol.specs.Registrar.{board_named, done_quietly, registrar_fields, registrar_message};
ghost use Rattle.registrar.specs.Steps.{asked_transaction, confirmation, taken_at, Copied};
ghost use Rattle.registrar.specs.Steps.{headed as Steps·headed};

use crate::answers::{
    again, done_quietly, done_sending, refused_message, refused_quietly, refused_reading,
};
use crate::host::settled;
use crate::rows::{is_good, later_refusal};
use crate::slots::{Found, find, free_slot, held_or_free, with_at};
use crate::states::{is_confirmed, is_granted, settled_state};
use grammar::Message;
use incoming::rows::{fault_of, head_refusal, status_or_0};
use message::read;
use parts::{id_of, nonce_of};
use protocol::kinds::{CERT_CONF, is_opening_kind};
use protocol::{
    Board, FreshNonce, Nonce, RegistrarAnswer, RegistrarInput, Slot, Transaction, TransactionId,
    TransactionState, TransactionTable, Verdict, no_hash, no_nonce,
};

fn board_named(verdict: Verdict) -> Board
    ensures { result ≡ board_named verdict }
{
    verdict.unwrap_or(Board(0))
}

// The transaction that a request opens.
fn asked(id: TransactionId, board: Board, kind: u8, taken: Nonce) -> Transaction
    ensures { result ≡ asked_transaction id board kind taken }
{
    Transaction {
        id,
        board,
        kind,
        taken,
        sent: no_nonce(),
        hash: no_hash(),
        state: TransactionState::Asked,
    }
}

// A request that is not refused: the lowest free slot becomes Asked.
fn open(
    table: TransactionTable,
    id: TransactionId,
    board: Board,
    kind: u8,
    taken: Nonce,
) -> RegistrarAnswer
    ensures { result ≡ done_quietly (free_slot table.transactions) (put table.transactions (asked_transaction id board kind taken)) }
{
    // Where no slot is free none comes here (11); the definition `free_slot` then gives the number of slots.
    let Some(slot) = free_slot(table) else {
        return done_quietly(Slot(TransactionTable::CAPACITY), table);
    };
    let next = with_at(table, slot, asked(id, board, kind, taken));
    done_quietly(slot, next)
}

// A confirmation that is not refused: it moves the transaction at Granted, else it is the same once more.
fn confirm(
    table: TransactionTable,
    slot: Slot,
    held: Transaction,
    fresh: FreshNonce,
    id: TransactionId,
    answered: Nonce,
    status: u32,
) -> RegistrarAnswer
    ensures { result ≡ confirmation table slot.0 held fresh id answered status }
{
    let outgoing = outgoing::pki_conf(id, fresh, answered);
    if is_granted(held.state) {
        let next = settled(held, settled_state(status), answered);
        return done_sending(slot, with_at(table, slot, next), outgoing);
    }
    again(slot, table, outgoing)
}

// A message that no row refuses, by its kind. No certConf without a transaction (12) and no other kind (8) comes here.
fn taken(
    table: TransactionTable,
    found: Found,
    kind: u8,
    status: u32,
    input: RegistrarInput,
    id: TransactionId,
    answered: Nonce,
) -> RegistrarAnswer
    ensures { result ≡ taken_at table found kind status input id answered }
{
    if is_opening_kind(kind) {
        return open(table, id, board_named(input.verdict), kind, answered);
    }
    if kind == CERT_CONF {
        let Some((slot, held)) = found else {
            return refused_quietly(12, table);
        };
        return confirm(table, slot, held, input.nonce, id, answered, status);
    }
    refused_quietly(8, table)
}

// A message that the rows 3 to 7 do not refuse: `id` and `answered` are its id and its senderNonce.
fn headed(
    table: TransactionTable,
    bytes: &[u8],
    m: Message,
    input: RegistrarInput,
    id: TransactionId,
    answered: Nonce,
) -> RegistrarAnswer
    requires { Copied bytes.now m id answered }
    ensures { result ≡ Steps·headed table input id (fields_of bytes.now m) }
{
    let found = find(table, id);
    if let Some(number) = later_refusal(table, bytes, m, found, input.verdict) {
        let confirmed = is_confirmed(held_or_free(found).state);
        return refused_message(number, confirmed, table, input.nonce, id, answered);
    }
    let status = status_or_0(m.body.entry);
    taken(table, found, m.body.kind, status, input, id, answered)
}

// A message that reads.
fn step(table: TransactionTable, bytes: &[u8], m: Message, input: RegistrarInput) -> RegistrarAnswer
    ensures { result ≡ registrar_fields table input (fields_of bytes.now m) }
{
    let id = id_of(bytes, m.header.transaction_id);
    let answered = nonce_of(bytes, m.header.sender_nonce);
    if let Some(number) = head_refusal(bytes, m, is_good(input.verdict)) {
        return refused_message(number, false, table, input.nonce, id, answered);
    }
    headed(table, bytes, m, input, id, answered)
}

// A message: a request opens a transaction, a certConf settles one, and all else is refused.
pub fn message(table: TransactionTable, bytes: &[u8], input: RegistrarInput) -> RegistrarAnswer
    ensures { result ≡ registrar_message table input bytes.now }
{
    let reading = read(bytes);
    let Ok(m) = reading else {
        return refused_reading(fault_of(reading), table);
    };
    step(table, bytes, m, input)
}
