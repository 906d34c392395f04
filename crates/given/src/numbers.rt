// The spans as numbers of a lent array: two for each, its start and its length.
ghost use Rattle.std.specs.Prelude.{◌≡◌, ◌+◌, ◌*◌, ◌<◌, get_or};
ghost use Rattle.given.specs.Numbers.{span_at, spans_of};

use crate::GivenSpans;
use der::Offset;
use grammar::Span;

// How many numbers there are.
pub const GIVEN: usize = 22;

// The number at an index; 0 where there is none.
fn number(numbers: &[u64], i: usize) -> usize
    ensures { result ≡ get_or numbers.now i 0 }
{
    numbers.get(i).map_or(0, |n| *n as usize)
}

// The k-th span.
fn span_at(numbers: &[u64], k: u8) -> Span
    ensures { result ≡ span_at numbers.now k }
{
    let i = 2 * usize::from(k);
    Span {
        start: Offset(number(numbers, i)),
        len: number(numbers, i + 1),
    }
}

// What these numbers say is given; one that is missing is 0.
pub fn spans_of(version: u32, numbers: &[u64]) -> GivenSpans
    ensures { result ≡ spans_of version numbers.now }
{
    GivenSpans {
        version,
        sender: span_at(numbers, 0),
        recipient: span_at(numbers, 1),
        message_time: span_at(numbers, 2),
        protection_alg: span_at(numbers, 3),
        sender_kid: span_at(numbers, 4),
        recip_kid: span_at(numbers, 5),
        free_text: span_at(numbers, 6),
        general_info: span_at(numbers, 7),
        protection: span_at(numbers, 8),
        request: span_at(numbers, 9),
        certificate: span_at(numbers, 10),
    }
}
