// Reads a message: every part that was found, or the refusal; and hands its parts back as parts of the caller's own bytes.
#![tactic(auto)]

ghost use Rattle.std.specs.Prelude.{◌≡◌};
ghost use Rattle.grammar.specs.Span.{part_of};
ghost use Rattle.message.specs.Read.{broken_at, lowest, reading_of, protected_length};

use der::Offset;
use der::element::{Check, check_elements};
use grammar::pki_message::{MessageRead, read_message};
use grammar::{Message, part_of};

// The longest message, in bytes.
pub const MAX_MESSAGE: usize = 16384;

// The numbers of the two refusals.
const BAD_LENGTH: u8 = 1;

const BROKEN: u8 = 2;

// The rule of the grammar's faults; DER's are 1 to 4.
const GRAMMAR_RULE: u8 = 5;

// Refusal 1 or 2; of 2 the first fault's offset and the lowest rule broken there (1 to 4 are DER's, 5 the grammar's).
// Numbers, not enums: the C header hands them on, and the definitions of specs/Read.antt name them.
#[derive(Clone, Copy)]
pub struct ReadFault {
    pub number: u8,
    pub at: Offset,
    pub rule: u8,
}

// A message that reads, with all that was found; or its refusal.
pub type Reading = Result<Message, ReadFault>;

fn broken_at(at: Offset, rule: u8) -> Reading
    ensures { result ≡ broken_at at rule }
{
    Err(ReadFault {
        number: BROKEN,
        at,
        rule,
    })
}

// The lower of the two faults, if there is one; at one offset DER's comes before the grammar's.
#[tactic(auto, unfolding(crate::specs::Read::lowest))]
fn lowest_fault(check: Check, grammar: MessageRead) -> Reading
    ensures { result ≡ lowest check grammar }
{
    match check {
        Ok(()) if grammar.met => Ok(grammar.found),
        Err(fault) if grammar.met || fault.at.0 <= grammar.at.0 => {
            broken_at(fault.at, fault.rule)
        }
        _ => broken_at(grammar.at, GRAMMAR_RULE),
    }
}

// Reads a message: every part that was found, or the refusal.
#[tactic(auto, unfolding(crate::specs::Read::reading_of))]
pub fn read(message: &[u8]) -> Reading
    ensures { result ≡ reading_of message.now }
{
    if message.is_empty() || message.len() > MAX_MESSAGE {
        return Err(ReadFault {
            number: BAD_LENGTH,
            at: Offset(0),
            rule: 0,
        });
    }
    lowest_fault(check_elements(message), read_message(message))
}

// The header, the whole element. It and the next three differ in the field: public contracts.
pub fn header_part(message: &[u8], found: Message) -> &[u8]
    ensures { result.now ≡ part_of message.now found.header_span }
{
    part_of(message, found.header_span)
}

// The body, the whole element.
pub fn body_part(message: &[u8], found: Message) -> &[u8]
    ensures { result.now ≡ part_of message.now found.body_span }
{
    part_of(message, found.body_span)
}

// The protection, the whole element [0].
pub fn protection_part(message: &[u8], found: Message) -> &[u8]
    ensures { result.now ≡ part_of message.now found.protection }
{
    part_of(message, found.protection)
}

// The plain certificate of the only response.
pub fn certificate_part(message: &[u8], found: Message) -> &[u8]
    ensures { result.now ≡ part_of message.now found.body.entry.certificate }
{
    part_of(message, found.body.entry.certificate)
}

// How long the content of the protected part is: the DER SEQUENCE of header and body.
#[tactic(auto, unfolding(crate::specs::Read::protected_length))]
pub fn protected_length(found: Message) -> usize
    ensures { result ≡ protected_length found }
{
    let header = found.header_span.len;
    let body = found.body_span.len;
    if header > MAX_MESSAGE || body > MAX_MESSAGE {
        return 0;
    }
    header + body
}
