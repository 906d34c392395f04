// The functions for the host, over numbers and byte slices; `duskstall_c` exports them. Every one is total, whatever it is handed.
#![tactic(auto)]

mod boundary;
pub mod end_entity_calls;
pub mod registrar_calls;
pub mod writer_calls;

ghost use Rattle.std.specs.Prelude.{◌≡◌};
ghost use Rattle.fields.specs.Fields.{check_answer, read_answer, read_fields};
ghost use Rattle.duskstall.specs.Sizes.{lent_size};

use fields::{FIELDS, check_number, read_into};
use given::numbers::GIVEN;
use message::MAX_MESSAGE;
use packed::answer::{END_ENTITY_ANSWER_BYTES, REGISTRAR_ANSWER_BYTES};
use packed::enrolment::ENROLMENT_BYTES;
use packed::sent::OUTGOING_BYTES;
use packed::table::TABLE_BYTES;

// Whether all of `bytes` is whole DER elements, at most 16 deep. 0: yes; else the first fault's offset times 8 plus its rule;
// 7, which is no rule, where there are more than 4,294,967,295 bytes.
pub fn duskstall_check(bytes: &[u8]) -> u64
    ensures { result ≡ check_answer bytes.now }
{
    check_number(bytes)
}

// Reads `message`. 0: it is clean, and `fields` says where its parts are; 1 or 2: it is refused, and of 2 `fields` has the
// offset and the rule; 255: `fields` has no room, and stays as it was.
pub fn duskstall_read(message: &[u8], fields: &mut [u64]) -> u64
    ensures { (result ≡ read_answer message.now fields.old) × (fields.new ≡ read_fields message.now fields.old) }
{
    read_into(message, fields)
}

// The sizes that the calls ask for, so that a host can hold its header to the library: 0 a table, 1 an enrolment, 2 a registrar's answer, 3 an end
// entity's, 4 how many numbers a reading has, 5 the longest message. 0 for any other number.
pub fn duskstall_size(what: u8) -> u64
    ensures { result ≡ lent_size what }
{
    // the numbers are the C interface
    match what {
        0 => TABLE_BYTES as u64,
        1 => ENROLMENT_BYTES as u64,
        2 => REGISTRAR_ANSWER_BYTES as u64,
        3 => END_ENTITY_ANSWER_BYTES as u64,
        4 => FIELDS as u64,
        5 => MAX_MESSAGE as u64,
        6 => GIVEN as u64,
        7 => OUTGOING_BYTES as u64,
        _ => 0,
    }
}
