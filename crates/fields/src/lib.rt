// A reading as numbers at fixed places of a lent array, and the DER check as one number.
#![tactic(auto)]

mod places;

ghost use Rattle.std.specs.Prelude.{◌≡◌};
ghost use Rattle.fields.specs.Fields.{check_answer, read_answer, read_fields};

use crate::places::{put, put_message};
use der::element::check_elements;

// How many numbers there are.
pub const FIELDS: usize = 47;

// What stands for no rule and no refusal. Numbers, not errors: the C header has them, and specs/Fields.antt names them.
const TOO_LONG: u64 = 7;

const NO_ROOM: u64 = 255;

// Whether all of `bytes` is whole DER elements, at most 16 deep. 0: yes; else the first fault's offset times 8 plus its rule;
// 7, which is no rule, where there are more than 4,294,967,295 bytes.
#[tactic(auto, unfolding(crate::specs::Fields::check_answer, der::specs::Element::check), using(der::proofs::ElementLaws::fault_in))]
pub fn check_number(bytes: &[u8]) -> u64
    ensures { result ≡ check_answer bytes.now }
{
    if bytes.len() > u32::MAX as usize {
        return TOO_LONG;
    }
    match check_elements(bytes) {
        Ok(()) => 0,
        Err(fault) => fault.at.0 as u64 * 8 + u64::from(fault.rule),
    }
}

// Reads `message`. 0: it is clean, and `fields` says where its parts are; 1 or 2: it is refused, and of 2 `fields` has the
// offset and the rule; 255: `fields` has no room, and stays as it was.
#[tactic(auto, unfolding(crate::specs::Fields::read_answer, crate::specs::Fields::read_fields))]
pub fn read_into(message: &[u8], fields: &mut [u64]) -> u64
    ensures { (result ≡ read_answer message.now fields.old) × (fields.new ≡ read_fields message.now fields.old) }
{
    if fields.len() < FIELDS {
        return NO_ROOM;
    }
    match message::read(message) {
        Ok(found) => {
            put_message(fields, found);
            0
        }
        Err(fault) => {
            put(fields, 0, fault.at.0 as u64);
            put(fields, 1, u64::from(fault.rule));
            u64::from(fault.number)
        }
    }
}
