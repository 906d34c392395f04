// The table's slots: which one an id names, the lowest free one, and the table with one of them changed.
ghost use Rattle.std.specs.Prelude.{◌≡◌, length};
ghost use Rattle.std.proofs.Math.Option.{get_or};
ghost use Rattle.protocol.specs.Table.{capacity, is_for, free_transaction, lookup, slot_of, has_free_slot, free_slot};
ghost use Rattle.registrar.specs.Steps.{held_at, with_at, found_in, found_by, place_in};

use crate::states::is_free;
use parts::same_id;
use protocol::{Slot, Transaction, TransactionId, TransactionTable};

// The transaction in use that has an id, with its slot.
pub(crate) type Found = Option<(Slot, Transaction)>;

fn is_for(id: TransactionId, t: Transaction) -> bool
    ensures { result ≡ is_for id t }
{
    !is_free(t.state) && same_id(t.id, id)
}

pub(crate) fn find(table: TransactionTable, id: TransactionId) -> Found
    ensures { result ≡ found_in (lookup table.transactions id) (slot_of table.transactions id) }
{
    let place = table.transactions.iter().position(|t| is_for(id, *t))?;
    Some((Slot(place), transaction_at(table, Slot(place))))
}

// What was found; a free transaction where there is none.
pub(crate) fn held_or_free(found: Found) -> Transaction
    ensures { result ≡ get_or (found_by found) free_transaction }
{
    match found {
        Some((_, held)) => held,
        None => Transaction::free(),
    }
}

// The lowest free slot.
pub(crate) fn free_slot(table: TransactionTable) -> Option<Slot>
    ensures slot { result ≡ place_in (has_free_slot table.transactions) (free_slot table.transactions) }
    ensures slots { length table.transactions ≡ capacity }
{
    let place = table.transactions.iter().position(|t| is_free(t.state))?;
    Some(Slot(place))
}

// The transaction in a slot; a free one past the last slot.
pub fn transaction_at(table: TransactionTable, slot: Slot) -> Transaction
    ensures { result ≡ held_at table.transactions slot.0 }
{
    match table.transactions.get(slot.0) {
        Some(t) => *t,
        None => Transaction::free(),
    }
}

// The table with this transaction in a slot; as it was past the last slot.
pub(crate) fn with_at(table: TransactionTable, slot: Slot, x: Transaction) -> TransactionTable
    ensures { result ≡ with_at table slot.0 x }
{
    let mut next = table;
    if slot.0 < TransactionTable::CAPACITY {
        next.transactions[slot.0] = x;
    }
    next
}
