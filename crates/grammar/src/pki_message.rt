// PKIMessage by its grammar alone: heads are followed, and what lies below them is left to the check of the whole.
ghost use Rattle.std.specs.Prelude.{◌≡◌, length};
ghost use Rattle.grammar.specs.Message.{start_at, message_of};

use crate::Message;
use crate::cursor::{Cursor, done, enter, leave, need};
use crate::parts::{Each, field, outer_span, sequence_field, whole_span};
use crate::pki_body::read_body;
use crate::pki_header::read_header;
use der::Offset;

// Whether the grammar is met, where reading by it stopped (at its fault, by rule 5, where it is not met), and what was found up to there.
#[derive(Clone, Copy)]
pub struct MessageRead {
    pub met: bool,
    pub at: Offset,
    pub found: Message,
}

#[tactic(auto, unfolding(crate::specs::Message::start_at))]
pub(crate) fn start_at(end: usize) -> Cursor
    ensures { result ≡ start_at end }
{
    Cursor {
        at: 0,
        end,
        from: 0,
        to: 0,
        rule: 0,
    }
}

// Reads a message by its grammar.
#[tactic(auto, unfolding(crate::specs::Message::message_of))]
pub fn read_message(m: &[u8]) -> MessageRead
    ensures { result ≡ message_of m.now }
{
    let s = need(m, start_at(m.len()), 0x30);
    let c = enter(s);
    let h = read_header(m, c);
    let b = read_body(m, h.cur);
    let p = field(m, b.cur, 0xA0, 0x03);
    let x = sequence_field(m, p, 0xA1, Each::Certificate);
    let cur = done(leave(s, done(x)));
    MessageRead {
        met: cur.rule == 0,
        at: Offset(cur.at),
        found: Message {
            header_span: whole_span(c, h.cur),
            body_span: whole_span(h.cur, b.cur),
            protection: outer_span(b.cur, p),
            extra_certs: outer_span(p, x),
            header: h.header,
            body: b.body,
        },
    }
}
