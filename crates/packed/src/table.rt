// The transaction table in lent bytes.
ghost use Rattle.std.specs.Prelude.{◌≡◌, ◌≤◌, cond, eqb, ltb, length, get_or, Some, None};
ghost use Rattle.protocol.specs.Table.{capacity};
ghost use Rattle.packed.specs.Bytes.{Placed};
ghost use Rattle.packed.specs.Places.{transaction_taken_at, transaction_state_at, progress_part_bytes};
ghost use Rattle.packed.specs.Table.{transaction_state_number, transaction_state_of, transaction_bytes, pack_request, pack_progress, pack_transaction, transaction_of, table_bytes, pack_rows, states_good, table_of, unpack_table, pack_table_in};

use crate::bytes::{get, put};
use crate::places;
use protocol::{
    Board, Hash, Nonce, Transaction, TransactionId, TransactionState, TransactionTable,
};

pub const TRANSACTION_BYTES: usize = places::TRANSACTION_END;

pub const TABLE_BYTES: usize = TransactionTable::CAPACITY * TRANSACTION_BYTES;

// No `From` for a state, nor `TryFrom` of one: the type is protocol's.
fn state_number(s: TransactionState) -> u8
    ensures { result ≡ transaction_state_number s }
{
    match s {
        TransactionState::Free => 0,
        TransactionState::Asked => 1,
        TransactionState::Granted => 2,
        TransactionState::Confirmed => 3,
        TransactionState::Declined => 4,
        TransactionState::Refused => 5,
        TransactionState::Lapsed => 6,
    }
}

#[tactic(auto, unfolding(crate::specs::Table::transaction_state_of))]
fn state_of(n: u8) -> Option<TransactionState>
    ensures { result ≡ cond (ltb n 7) (Some (transaction_state_of n)) None }
{
    match n {
        0 => Some(TransactionState::Free),
        1 => Some(TransactionState::Asked),
        2 => Some(TransactionState::Granted),
        3 => Some(TransactionState::Confirmed),
        4 => Some(TransactionState::Declined),
        5 => Some(TransactionState::Refused),
        6 => Some(TransactionState::Lapsed),
        _ => None,
    }
}

// The transaction that the first bytes hold, where the state byte is a state.
fn get_transaction(bytes: &[u8]) -> Option<Transaction>
    requires { transaction_bytes ≤ length bytes.now }
    ensures { result ≡ cond (ltb (get_or bytes.now transaction_state_at 0) 7) (Some (transaction_of bytes.now)) None }
{
    let state = state_of(bytes[places::TRANSACTION_STATE])?;
    Some(Transaction {
        id: TransactionId {
            bytes: get(bytes, places::TRANSACTION_ID),
        },
        board: Board(u16::from_be_bytes(get(bytes, places::TRANSACTION_BOARD))),
        kind: bytes[places::TRANSACTION_KIND],
        taken: Nonce {
            bytes: get(bytes, places::TRANSACTION_TAKEN),
        },
        sent: Nonce {
            bytes: get(bytes, places::TRANSACTION_SENT),
        },
        hash: Hash {
            bytes: get(bytes, places::TRANSACTION_HASH),
        },
        state,
    })
}

// Id, board and kind.
fn put_request(bytes: &mut [u8], t: &Transaction)
    requires { transaction_bytes ≤ length bytes.old }
    ensures { Placed 0 transaction_taken_at (pack_request t.now) bytes.old bytes.new }
{
    put(bytes, places::TRANSACTION_ID, &t.id.bytes);
    put(bytes, places::TRANSACTION_BOARD, &t.board.0.to_be_bytes());
    bytes[places::TRANSACTION_KIND] = t.kind;
}

// Nonces, hash and state.
fn put_progress(bytes: &mut [u8], t: &Transaction)
    requires { transaction_bytes ≤ length bytes.old }
    ensures { Placed transaction_taken_at progress_part_bytes (pack_progress t.now) bytes.old bytes.new }
{
    put(bytes, places::TRANSACTION_TAKEN, &t.taken.bytes);
    put(bytes, places::TRANSACTION_SENT, &t.sent.bytes);
    put(bytes, places::TRANSACTION_HASH, &t.hash.bytes);
    bytes[places::TRANSACTION_STATE] = state_number(t.state);
}

// The transaction as the first bytes.
fn put_transaction(bytes: &mut [u8], t: &Transaction)
    requires { transaction_bytes ≤ length bytes.old }
    ensures { Placed 0 transaction_bytes (pack_transaction t.now) bytes.old bytes.new }
{
    put_request(bytes, t);
    put_progress(bytes, t);
}

// The table that the bytes hold, where each state byte is a state.
fn get_table(bytes: &[u8]) -> Option<TransactionTable>
    requires { table_bytes ≤ length bytes.now }
    ensures { result ≡ cond (states_good capacity bytes.now) (Some (table_of bytes.now)) None }
{
    let mut table = TransactionTable::empty();
    for i in 0..TransactionTable::CAPACITY {
        table.transactions[i] = get_transaction(&bytes[i * TRANSACTION_BYTES..])?;
    }
    Some(table)
}

// The table that `bytes` holds, where they are exactly as long as one and every state byte is a state.
#[tactic(auto, unfolding(crate::specs::Table::unpack_table))]
pub fn unpack_table(bytes: &[u8]) -> Option<TransactionTable>
    ensures { result ≡ unpack_table bytes.now }
{
    if bytes.len() != TABLE_BYTES {
        return None;
    }
    get_table(bytes)
}

fn put_rows(bytes: &mut [u8], rows: &[Transaction; TransactionTable::CAPACITY])
    requires { table_bytes ≤ length bytes.old }
    ensures { Placed 0 table_bytes (pack_rows rows.now) bytes.old bytes.new }
{
    for (i, row) in rows.iter().enumerate() {
        put_transaction(&mut bytes[i * TRANSACTION_BYTES..], row);
    }
}

// The table as bytes. False, with nothing changed, where `bytes` is not exactly as long as one.
#[inline(always)]
#[tactic(auto, unfolding(crate::specs::Table::pack_table_in))]
pub fn pack_table(bytes: &mut [u8], table: TransactionTable) -> bool
    ensures { (result ≡ eqb (length bytes.old) table_bytes) × (bytes.new ≡ pack_table_in table bytes.old) }
{
    if bytes.len() == TABLE_BYTES {
        put_rows(bytes, &table.transactions);
        true
    } else {
        false
    }
}
