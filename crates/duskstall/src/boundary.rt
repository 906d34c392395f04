// What both ends' calls share at the boundary: faults of the lent bytes, values from numbers, answers into bytes.
ghost use Rattle.std.specs.Prelude.{◌≡◌, cond, is_some, Ok, Err, length, leb};
ghost use Rattle.std.specs.Option.{ok_or};
ghost use Rattle.packed.specs.Arrays.{unpack};
ghost use Rattle.packed.specs.Table.{unpack_table};
ghost use Rattle.packed.specs.Enrolment.{unpack_enrolment};
ghost use Rattle.packed.specs.Answer.{outcome_number, registrar_answer_bytes, end_entity_answer_bytes};
ghost use Rattle.duskstall.specs.declared.boundary.BoundaryFault.TheVariants.{NoState, Argument};
ghost use Rattle.duskstall.specs.Calls.{id_of, fresh_of, hash_of};
ghost use Rattle.duskstall.specs.Boundary.{Crosses, fault_number, returned, registrar_written, end_entity_written, start_written, yes, verdict_of};

use packed::answer::{
    END_ENTITY_ANSWER_BYTES, REGISTRAR_ANSWER_BYTES, outcome_number, pack_end_entity_answer,
    pack_registrar_answer,
};
use packed::arrays::unpack;
use packed::enrolment::{pack_enrolment, unpack_enrolment};
use packed::table::{pack_table, unpack_table};
use protocol::{
    Board, EndEntityAnswer, Enrolment, FreshNonce, Hash, Outcome, RegistrarAnswer, TransactionId,
    TransactionTable, Verdict,
};

// Why a call is not made, and nothing changes: no state, a length of what is handed in, no room for the answer. The first that applies is told.
#[derive(Clone, Copy, PartialEq, Eq, Debug)]
pub enum BoundaryFault {
    NoState,
    Argument,
    NoRoom,
}

impl BoundaryFault {
    // The numbers are the C interface.
    pub(crate) fn number(self) -> u64
        ensures { result ≡ fault_number self }
    {
        match self {
            BoundaryFault::NoState => 251,
            BoundaryFault::Argument => 252,
            BoundaryFault::NoRoom => 253,
        }
    }
}

pub(crate) fn table_in(bytes: &[u8]) -> Result<TransactionTable, BoundaryFault>
    ensures { result ≡ ok_or (unpack_table bytes.now) NoState }
{
    unpack_table(bytes).ok_or(BoundaryFault::NoState)
}

pub(crate) fn enrolment_in(bytes: &[u8]) -> Result<Enrolment, BoundaryFault>
    ensures { result ≡ ok_or (unpack_enrolment bytes.now) NoState }
{
    unpack_enrolment(bytes).ok_or(BoundaryFault::NoState)
}

// The bytes of an id, a nonce or a hash.
fn argument<const N: usize>(bytes: &[u8]) -> Result<[u8; N], BoundaryFault>
    ensures { result ≡ ok_or (unpack N bytes.now) Argument }
{
    unpack(bytes).ok_or(BoundaryFault::Argument)
}

// One function for each of protocol's types: they share no trait.
pub(crate) fn id_in(bytes: &[u8]) -> Result<TransactionId, BoundaryFault>
    ensures { result ≡ cond (is_some (unpack 16 bytes.now)) (Ok (id_of bytes.now)) (Err Argument) }
{
    let bytes = argument(bytes)?;
    Ok(TransactionId { bytes })
}

pub(crate) fn fresh_in(bytes: &[u8]) -> Result<FreshNonce, BoundaryFault>
    ensures { result ≡ cond (is_some (unpack 16 bytes.now)) (Ok (fresh_of bytes.now)) (Err Argument) }
{
    let bytes = argument(bytes)?;
    Ok(FreshNonce { bytes })
}

pub(crate) fn hash_in(bytes: &[u8]) -> Result<Hash, BoundaryFault>
    ensures { result ≡ cond (is_some (unpack 32 bytes.now)) (Ok (hash_of bytes.now)) (Err Argument) }
{
    let bytes = argument(bytes)?;
    Ok(Hash { bytes })
}

// 1 is yes, every other number no, so that -1, by which others tell a failure, is not good.
const YES: u8 = 1;

pub(crate) fn yes(n: u8) -> bool
    ensures { result ≡ yes n }
{
    n == YES
}

pub(crate) fn verdict_of(good: u8, board: u16) -> Verdict
    ensures { result ≡ verdict_of good board }
{
    yes(good).then_some(Board(board))
}

fn outcome_code(o: Outcome) -> u64
    ensures { result ≡ outcome_number o }
{
    u64::from(outcome_number(o))
}

// The registrar's answer into the lent bytes, unless there is none or no room for it. Each call's own three lines, not one function that takes
// room and packing as closures: that is no plainer.
pub(crate) fn registrar_answered(
    table: &mut [u8],
    answer: &mut [u8],
    answered: Result<RegistrarAnswer, BoundaryFault>,
) -> u64
    ensures { Crosses result table.new answer.new (returned answered (leb registrar_answer_bytes (length answer.old)) (λ a. registrar_written a table.old answer.old) table.old answer.old) }
{
    match answered {
        Ok(a) if REGISTRAR_ANSWER_BYTES <= answer.len() => {
            pack_table(table, a.table);
            pack_registrar_answer(answer, a);
            outcome_code(a.outcome)
        }
        Ok(_) => BoundaryFault::NoRoom.number(),
        Err(fault) => fault.number(),
    }
}

// The end entity's answer into the lent bytes, likewise.
pub(crate) fn end_entity_answered(
    enrolment: &mut [u8],
    answer: &mut [u8],
    answered: Result<EndEntityAnswer, BoundaryFault>,
) -> u64
    ensures { Crosses result enrolment.new answer.new (returned answered (leb end_entity_answer_bytes (length answer.old)) (λ a. end_entity_written a enrolment.old answer.old) enrolment.old answer.old) }
{
    match answered {
        Ok(a) if END_ENTITY_ANSWER_BYTES <= answer.len() => {
            pack_enrolment(enrolment, a.enrolment);
            pack_end_entity_answer(answer, a);
            outcome_code(a.outcome)
        }
        Ok(_) => BoundaryFault::NoRoom.number(),
        Err(fault) => fault.number(),
    }
}

// A start's answer, likewise, but that a refused start gives no enrolment.
pub(crate) fn start_answered(
    enrolment: &mut [u8],
    answer: &mut [u8],
    answered: Result<EndEntityAnswer, BoundaryFault>,
) -> u64
    ensures { Crosses result enrolment.new answer.new (returned answered (leb end_entity_answer_bytes (length answer.old)) (λ a. start_written a enrolment.old answer.old) enrolment.old answer.old) }
{
    match answered {
        Ok(started) if END_ENTITY_ANSWER_BYTES <= answer.len() => {
            pack_end_entity_answer(answer, started);
            let code = outcome_code(started.outcome);
            if code == 0 {
                pack_enrolment(enrolment, started.enrolment);
            }
            code
        }
        Ok(_) => BoundaryFault::NoRoom.number(),
        Err(fault) => fault.number(),
    }
}
