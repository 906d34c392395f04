// The rows of 01's table that both ends share, and the bit that goes with each number.
ghost use Rattle.std.specs.Prelude.{◌≡◌, not, map, ◌&&◌, ◌||◌, eqb};
ghost use Rattle.protocol.specs.Message.{is_present, fields_of, optional_status, status_or0};
ghost use Rattle.protocol.specs.Refusals.{bit_of, no_fault, read_refusal, lowest_row, head_rows};
ghost use Rattle.incoming.specs.Incoming.{fault_of, number_of, row_of, or_row, ChainFinds, NumbersPositive};

use der::Offset;
use grammar::{Entry, Message};
use message::{ReadFault, Reading};
use parts::{is_present, not_sixteen};
use protocol::FailureInfo;

// What stands in an answer where the message reads, or there is none.
pub fn no_fault() -> ReadFault
    ensures { result ≡ no_fault }
{
    ReadFault {
        number: 0,
        at: Offset(0),
        rule: 0,
    }
}

// The fault that a reading names.
pub fn fault_of(reading: Reading) -> ReadFault
    ensures { result ≡ fault_of reading }
{
    match reading {
        Ok(_) => no_fault(),
        Err(fault) => fault,
    }
}

// 1 or 2.
pub fn read_refusal(fault: ReadFault) -> u8
    ensures { result ≡ read_refusal fault }
{
    if fault.number == 1 { 1 } else { 2 }
}

// 3
fn other_version(version: u32) -> bool
    ensures { result ≡ not (eqb version 2 || eqb version 3) }
{
    !matches!(version, 2 | 3)
}

// 6
fn unprotected(m: Message) -> bool
    ensures { result ≡ not (is_present m.protection && is_present m.header.protection_alg) }
{
    !(is_present(m.protection) && is_present(m.header.protection_alg))
}

// The next row of a table: the number so far, or this one where it applies; 0 is no row's number. The code of both ends asks
// `first_row`; this is for a caller that has one row at a time. It is public and documents name it, so it stays.
#[tactic(auto, using(crate::proofs::RowLaws::chain_finds, crate::proofs::RowLaws::numbers_positive))]
pub fn or_row(so_far: u8, number: u8, applies: bool) -> u8
    ensures row { result ≡ or_row so_far number applies }
    ensures chain { ChainFinds }
    ensures positive { NumbersPositive }
{
    if so_far != 0 {
        return so_far;
    }
    if applies { number } else { 0 }
}

// The number of the first row of a table that applies: each row is its number and whether it applies.
pub fn first_row(rows: &[(u8, bool)]) -> Option<u8>
    ensures { result ≡ number_of (lowest_row (map row_of rows.now)) }
{
    rows.iter()
        .find(|(_, applies)| *applies)
        .map(|(number, _)| *number)
}

// The lowest of the rows 3 to 7 that applies.
#[tactic(auto, unfolding(protocol::specs::Message::fields_of))]
pub fn head_refusal(message: &[u8], m: Message, good: bool) -> Option<u8>
    ensures { result ≡ number_of (lowest_row (head_rows good (fields_of message.now m))) }
{
    first_row(&[
        (3, other_version(m.header.version)),
        (4, not_sixteen(message, m.header.transaction_id)),
        (5, not_sixteen(message, m.header.sender_nonce)),
        (6, unprotected(m)),
        (7, !good),
    ])
}

// The status of the only entry, or of an error; one that is left out counts as 0.
pub fn status_or_0(entry: Entry) -> u32
    ensures { result ≡ status_or0 (optional_status entry.status) }
{
    entry.status.unwrap_or(0)
}

// 01's column "bit".
#[tactic(auto, unfolding(protocol::specs::Refusals::bit_of))]
pub fn bit_of(number: u8, confirmed: bool) -> FailureInfo
    ensures { result ≡ bit_of number confirmed }
{
    match number {
        1 | 2 | 4 => Some(5),
        3 => Some(22),
        5 => Some(18),
        6 | 7 => Some(1),
        8 | 9 | 12 | 15..=18 => Some(2),
        10 => Some(21),
        11 => Some(24),
        13 => Some(23),
        14 => Some(13),
        19 => Some(4),
        20 => Some(if confirmed { 11 } else { 2 }),
        _ => None,
    }
}
