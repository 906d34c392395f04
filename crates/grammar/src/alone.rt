// Parts of a message that stand alone, each by its rule: for one who is given them and writes the message.
ghost use Rattle.std.specs.Prelude.{◌≡◌};
ghost use Rattle.grammar.specs.declared.parts.Each.TheVariants.{Text, Info};
ghost use Rattle.grammar.specs.Cursor.{is_ok, done_of};
ghost use Rattle.grammar.specs.Parts.{typed_of, sequence_of};
ghost use Rattle.grammar.specs.Entries.{request_of};
ghost use Rattle.grammar.specs.Header.{name_tag};
ghost use Rattle.grammar.specs.Alone.{alone};

use crate::cursor::{Cursor, done};
use crate::entries::request;
use crate::parts::{Each, sequence_of, typed};
use crate::pki_header::name_tag;
use crate::pki_message::start_at;

fn ends(c: Cursor) -> bool
    ensures { result ≡ is_ok (done_of c) }
{
    done(c).rule == 0
}

// Whether this is the tag of a GeneralName.
pub fn is_name_tag(tag: u8) -> bool
    ensures { result ≡ name_tag tag }
{
    name_tag(tag)
}

// AlgorithmIdentifier.
pub fn is_typed(e: &[u8]) -> bool
    ensures { result ≡ alone typed_of e.now }
{
    ends(typed(e, start_at(e.len())))
}

// PKIFreeText.
pub fn is_free_text(e: &[u8]) -> bool
    ensures { result ≡ alone (λ m. sequence_of m Text) e.now }
{
    ends(sequence_of(e, start_at(e.len()), Each::Text))
}

// SEQUENCE of one or more InfoTypeAndValue.
pub fn is_general_info(e: &[u8]) -> bool
    ensures { result ≡ alone (λ m. sequence_of m Info) e.now }
{
    ends(sequence_of(e, start_at(e.len()), Each::Info))
}

// A request message.
pub fn is_request_message(e: &[u8]) -> bool
    ensures { result ≡ alone (λ m c. (request_of m c).cur) e.now }
{
    ends(request(e, start_at(e.len())).cur)
}
