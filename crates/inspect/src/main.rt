// Reads a message from standard input and prints where its parts are, start and length, or by which number it is refused.
//
// Where standard input cannot be read, it prints nothing but a line on standard error, and where standard output cannot be
// written, such a line too. The program ends with 0 in these cases as well. A read that a signal interrupts counts as one that
// failed.
#![tactic(auto)]

ghost use Rattle.std.specs.Prelude.{◌≤◌, IfOk, length};

use grammar::{Message, Span};
use message::Reading;
use std::io;
use std::io::Read;

// The kind of a certConf in PKIBody.
const CERT_CONF: u8 = 24;

// All there is to read, or as much as there is room for. Read by read, since read_to_end wants a heap.
fn read_input<'a>(rt: &HostRuntime, buf: &'a mut [u8]) -> io::Result<&'a [u8]>
    ensures { IfOk result (λ input. length input.now ≤ length buf.old) }
{
    let mut stdin = rt.stdin();
    let mut done = 0;
    while done < buf.len() {
        let more = stdin.read(&mut buf[done..])?;
        if more == 0 {
            break;
        }
        done += more;
    }
    Ok(&buf[..done])
}

fn put_span(rt: &HostRuntime, word: &str, span: Span) -> io::Result<()> {
    println!(rt; "{word} {} {}", span.start.0, span.len)
}

fn put_hash(rt: &HostRuntime, m: Message) -> io::Result<()> {
    if m.body.kind == CERT_CONF && m.body.entries == 1 {
        return put_span(rt, "hash", m.body.entry.cert_hash);
    }
    Ok(())
}

fn put_message(rt: &HostRuntime, m: Message) -> io::Result<()> {
    println!(rt; "kind {}", m.body.kind)?;
    put_span(rt, "header", m.header_span)?;
    put_span(rt, "body", m.body_span)?;
    put_span(rt, "protection", m.protection)?;
    put_hash(rt, m)
}

fn put_reading(rt: &HostRuntime, reading: Reading) -> io::Result<()> {
    match reading {
        Ok(m) => put_message(rt, m),
        Err(fault) => println!(rt; "refused {}", fault.number),
    }
}

// One byte more than a message may have tells a longer one; nothing after it is waited for.
const ROOM: usize = message::MAX_MESSAGE + 1;

fn main(rt: HostRuntime) {
    let mut buffer = [0; ROOM];
    let Ok(input) = read_input(&rt, &mut buffer) else {
        let _ = eprintln!(rt; "inspect: cannot read standard input");
        return;
    };
    if put_reading(&rt, message::read(input)).is_err() {
        let _ = eprintln!(rt; "inspect: cannot write standard output");
    }
}
