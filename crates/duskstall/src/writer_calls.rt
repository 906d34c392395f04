// Writing over lent bytes.
ghost use Rattle.std.specs.Prelude.{◌≡◌};
ghost use Rattle.duskstall.specs.Write.{not_written, written_number, write_number, write_buffer};

use given::numbers::{GIVEN, spans_of};
use packed::sent::unpack_outgoing;
use writer::{Written, write};

// In the high 32 bits.
fn not_written(number: u8) -> u64
    ensures { result ≡ not_written number }
{
    u64::from(number) * 4294967296
}

fn written_number(w: Written) -> u64
    ensures { result ≡ written_number w }
{
    match w {
        Ok(n) => n as u64,
        Err(number) => not_written(number),
    }
}

// Writes the message that `outgoing` holds, as an answer hands it out, with the parts of `source` that `given` names, as the first bytes of
// `buffer`. Answers its size; or, in the high 32 bits, why nothing is changed: 252 for a length of `outgoing` or `given`, else the refusal.
#[tactic(auto, unfolding(crate::specs::Write::write_number, crate::specs::Write::write_buffer))]
pub fn duskstall_write(
    outgoing: &[u8],
    version: u32,
    given: &[u64],
    source: &[u8],
    buffer: &mut [u8],
) -> u64
    ensures { (result ≡ write_number outgoing.now version given.now source.now buffer.old) × (buffer.new ≡ write_buffer outgoing.now version given.now source.now buffer.old) }
{
    match unpack_outgoing(outgoing) {
        Some(order) if given.len() == GIVEN => {
            written_number(write(order, spans_of(version, given), source, buffer))
        }
        // the C interface: the number of BoundaryFault::Argument
        _ => not_written(252),
    }
}
