// The rows 8 to 20 of 01's table at the registrar, in its order: the number of the lowest that applies.
ghost use Rattle.std.specs.Prelude.{◌≡◌, not, cond, ◌&&◌, ◌||◌, eqb};
ghost use Rattle.std.proofs.Math.Option.{get_or};
ghost use Rattle.protocol.specs.Bytes.{is_nonce, same_bytes};
ghost use Rattle.grammar.specs.Span.{part_of};
ghost use Rattle.protocol.specs.Message.{is_opening_kind, request_number, is_present, optional_part, fields_of};
ghost use Rattle.protocol.specs.Table.{has_free_slot, free_transaction};
ghost use Rattle.protocol.specs.States.{has_sent, has_hash, is_granted, settled_by};
ghost use Rattle.protocol.specs.Refusals.{lowest_row};
ghost use Rattle.protocol.specs.RegistrarRows.{is_good, names, transaction_rows, entry_rows, later_rows};
ghost use Rattle.incoming.specs.Incoming.{number_of};
ghost use Rattle.registrar.specs.Steps.{found_by};

use crate::slots::{Found, free_slot, held_or_free};
use crate::states::{has_hash, has_sent, is_granted, settled_by};
use grammar::{Message, Span};
use incoming::rows::{first_row, status_or_0};
use parts::{is_hash, is_nonce, is_present};
use protocol::kinds::{CERT_CONF, is_opening_kind, request_number};
use protocol::{Board, Transaction, TransactionTable, Verdict};

// Whether the host found the protection good.
pub(crate) fn is_good(verdict: Verdict) -> bool
    ensures { result ≡ is_good verdict }
{
    verdict.is_some()
}

// Of a request (01's opening).
fn of_request(kind: u8, opening: bool) -> bool
    ensures { result ≡ (is_opening_kind kind && opening) }
{
    is_opening_kind(kind) && opening
}

// Of a certConf.
fn of_cert_conf(kind: u8, confirming: bool) -> bool
    ensures { result ≡ (eqb kind 24 && confirming) }
{
    kind == CERT_CONF && confirming
}

// Of the one entry of a certConf.
fn of_one(kind: u8, entries: usize, applies: bool) -> bool
    ensures { result ≡ (eqb kind 24 && eqb entries 1 && applies) }
{
    kind == CERT_CONF && entries == 1 && applies
}

// 8: neither a request nor a certConf.
fn other_kind(kind: u8) -> bool
    ensures { result ≡ not (is_opening_kind kind || eqb kind 24) }
{
    !is_opening_kind(kind) && kind != CERT_CONF
}

// 11: no slot is free.
fn full(table: TransactionTable) -> bool
    ensures { result ≡ not (has_free_slot table.transactions) }
{
    free_slot(table).is_none()
}

// 11, of a request: a certConf needs no slot.
fn opens_full(kind: u8, table: TransactionTable) -> bool
    ensures { result ≡ (is_opening_kind kind && not (has_free_slot table.transactions)) }
{
    is_opening_kind(kind) && full(table)
}

// 13: the verdict does not name this board.
fn for_another(verdict: Verdict, board: Board) -> bool
    ensures { result ≡ not (names verdict board) }
{
    verdict.is_none_or(|named| named.0 != board.0)
}

// 14: it does not answer the response that the transaction sent.
fn other_nonce(message: &[u8], span: Span, held: Transaction) -> bool
    ensures { result ≡ not (has_sent held.state && is_nonce (optional_part message.now span) held.sent) }
{
    !(has_sent(held.state) && is_nonce(message, span, held.sent))
}

// The kinds whose entries are counted.
fn has_entries(kind: u8) -> bool
    ensures { result ≡ (eqb kind 0 || eqb kind 2 || eqb kind 7 || eqb kind 24) }
{
    matches!(kind, 0 | 2 | 7 | CERT_CONF)
}

// 15: not exactly one entry.
fn not_one(kind: u8, entries: usize) -> bool
    ensures { result ≡ ((eqb kind 0 || eqb kind 2 || eqb kind 7 || eqb kind 24) && not (eqb entries 1)) }
{
    has_entries(kind) && entries != 1
}

// The kind of the transaction that the message is about: a certConf's is held, a request's is its own.
fn kind_of(kind: u8, held: u8) -> u8
    ensures { result ≡ cond (eqb kind 24) held kind }
{
    if kind == CERT_CONF { held } else { kind }
}

// 16: not the number that goes with the transaction's kind.
fn other_request(kind: u8, entries: usize, number: u32, held: u8) -> bool
    ensures { result ≡ ((eqb kind 0 || eqb kind 2 || eqb kind 7 || eqb kind 24) && eqb entries 1 && not (eqb number (request_number (cond (eqb kind 24) held kind)))) }
{
    has_entries(kind) && entries == 1 && number != request_number(kind_of(kind, held))
}

// 17: a hashAlg with pvno 2.
fn early_hash_alg(kind: u8, entries: usize, alg: Span, version: u32) -> bool
    ensures { result ≡ (eqb kind 24 && eqb entries 1 && is_present alg && eqb version 2) }
{
    of_one(kind, entries, is_present(alg)) && version == 2
}

// 18: neither 0 nor 2.
fn other_status(status: u32) -> bool
    ensures { result ≡ not (eqb status 0 || eqb status 2) }
{
    !matches!(status, 0 | 2)
}

// 19: not the transaction's hash, or none is set.
fn other_hash(message: &[u8], span: Span, held: Transaction) -> bool
    ensures { result ≡ not (has_hash held && same_bytes (part_of message.now span) held.hash.bytes) }
{
    !(has_hash(held) && is_hash(message, span, held.hash))
}

// 20: not Granted, and not the confirmation that led to this state.
fn not_taken(message: &[u8], span: Span, held: Transaction, status: u32) -> bool
    ensures { result ≡ not (is_granted held.state || settled_by held.state status && is_nonce (optional_part message.now span) held.taken) }
{
    let again = settled_by(held.state, status) && is_nonce(message, span, held.taken);
    !(is_granted(held.state) || again)
}

// 8 to 14.
#[tactic(auto, unfolding(protocol::specs::Message::fields_of), using(crate::proofs::RowLaws::known_is, crate::proofs::RowLaws::present_is))]
fn transaction_refusal(
    table: TransactionTable,
    message: &[u8],
    m: Message,
    found: Found,
    verdict: Verdict,
) -> Option<u8>
    ensures { result ≡ number_of (lowest_row (transaction_rows table.transactions (found_by found) verdict (get_or (found_by found) free_transaction) (fields_of message.now m))) }
{
    let held = held_or_free(found);
    let kind = m.body.kind;
    let nonce = m.header.recip_nonce;
    first_row(&[
        (8, other_kind(kind)),
        (9, of_request(kind, is_present(nonce))),
        (10, of_request(kind, found.is_some())),
        (11, opens_full(kind, table)),
        (12, of_cert_conf(kind, found.is_none())),
        (13, of_cert_conf(kind, for_another(verdict, held.board))),
        (14, of_cert_conf(kind, other_nonce(message, nonce, held))),
    ])
}

// 15 to 20.
#[tactic(auto, unfolding(protocol::specs::Message::fields_of))]
fn entry_refusal(message: &[u8], m: Message, held: Transaction) -> Option<u8>
    ensures { result ≡ number_of (lowest_row (entry_rows held (fields_of message.now m))) }
{
    let kind = m.body.kind;
    let n = m.body.entries;
    let entry = m.body.entry;
    let status = status_or_0(entry);
    let version = m.header.version;
    let hash = other_hash(message, entry.cert_hash, held);
    let late = not_taken(message, m.header.sender_nonce, held, status);
    first_row(&[
        (15, not_one(kind, n)),
        (16, other_request(kind, n, entry.number, held.kind)),
        (17, early_hash_alg(kind, n, entry.hash_alg, version)),
        (18, of_one(kind, n, other_status(status))),
        (19, of_one(kind, n, hash)),
        (20, of_cert_conf(kind, late)),
    ])
}

// 8 to 20. `found` is the transaction with the message's id.
pub(crate) fn later_refusal(
    table: TransactionTable,
    message: &[u8],
    m: Message,
    found: Found,
    verdict: Verdict,
) -> Option<u8>
    ensures { result ≡ number_of (lowest_row (later_rows table.transactions (found_by found) verdict (get_or (found_by found) free_transaction) (fields_of message.now m))) }
{
    let number = transaction_refusal(table, message, m, found, verdict);
    number.or_else(|| entry_refusal(message, m, held_or_free(found)))
}
