// The forms of the registrar's answers, each made from a plainer one.
ghost use Rattle.std.specs.Prelude.{◌≡◌};
ghost use Rattle.protocol.specs.Registrar.{refused_quietly, refused_reading, done_quietly, done_sending};
ghost use Rattle.registrar.specs.Steps.{refusal_answer, repeated};

use incoming::rows::{bit_of, no_fault, read_refusal};
use message::ReadFault;
use protocol::{
    FreshNonce, Nonce, Outcome, Outgoing, RegistrarAnswer, Slot, TransactionId, TransactionTable,
};

// Done at this slot, with nothing to send.
pub(crate) fn done_quietly(slot: Slot, table: TransactionTable) -> RegistrarAnswer
    ensures { result ≡ done_quietly slot.0 table.transactions }
{
    RegistrarAnswer {
        outcome: Outcome::Done,
        fault: no_fault(),
        slot,
        outgoing: None,
        table,
    }
}

// Done at this slot, with this to send.
pub(crate) fn done_sending(
    slot: Slot,
    table: TransactionTable,
    outgoing: Outgoing,
) -> RegistrarAnswer
    ensures { result ≡ done_sending slot.0 table.transactions outgoing }
{
    RegistrarAnswer {
        outgoing: Some(outgoing),
        ..done_quietly(slot, table)
    }
}

// "again": the same acknowledgement, and no change.
pub(crate) fn again(slot: Slot, table: TransactionTable, outgoing: Outgoing) -> RegistrarAnswer
    ensures { result ≡ repeated slot.0 table outgoing }
{
    RegistrarAnswer {
        outcome: Outcome::Again,
        ..done_sending(slot, table, outgoing)
    }
}

// Refused, with nothing to send.
pub(crate) fn refused_quietly(number: u8, table: TransactionTable) -> RegistrarAnswer
    ensures { result ≡ refused_quietly number table }
{
    RegistrarAnswer {
        outcome: Outcome::Refused(number, bit_of(number, false)),
        ..done_quietly(Slot(0), table)
    }
}

// The bytes do not read.
pub(crate) fn refused_reading(fault: ReadFault, table: TransactionTable) -> RegistrarAnswer
    ensures { result ≡ refused_reading fault table }
{
    RegistrarAnswer {
        fault,
        ..refused_quietly(read_refusal(fault), table)
    }
}

// A message is refused: from 6 up with an error message.
pub(crate) fn refused_message(
    number: u8,
    confirmed: bool,
    table: TransactionTable,
    fresh: FreshNonce,
    id: TransactionId,
    answered: Nonce,
) -> RegistrarAnswer
    ensures { result ≡ refusal_answer number confirmed table fresh id answered }
{
    let bit = bit_of(number, confirmed);
    let refused = RegistrarAnswer {
        outcome: Outcome::Refused(number, bit),
        ..done_quietly(Slot(0), table)
    };
    if 6 <= number {
        return RegistrarAnswer {
            outgoing: Some(outgoing::error(id, fresh, answered, bit)),
            ..refused
        };
    }
    refused
}
