// The types that the registrar (01's desk) and the end entities (01's board ends) share.
#![tactic(auto)]

ghost use Rattle.std.specs.Prelude.{◌≡◌};
ghost use Rattle.protocol.specs.Bytes.{no_id, no_nonce, no_hash, nonce_from};
ghost use Rattle.protocol.specs.Table.{free_transaction, empty_table};
ghost use Rattle.protocol.specs.EndEntity.{no_enrolment};

use message::ReadFault;

pub mod kinds;

// A board's number.
#[derive(Clone, Copy, Debug, PartialEq, Eq)]
pub struct Board(pub u16);

// A place in the transaction table (01's record place).
#[derive(Clone, Copy, Debug, PartialEq, Eq)]
pub struct Slot(pub usize);

// The bytes of a transactionID.
#[derive(Clone, Copy, Debug, PartialEq, Eq)]
pub struct TransactionId {
    pub bytes: [u8; TransactionTable::ID_BYTES],
}

// A senderNonce or a recipNonce, of a message that came or of one to be sent.
#[derive(Clone, Copy, Debug, PartialEq, Eq)]
pub struct Nonce {
    pub bytes: [u8; 16],
}

// The 16 bytes that the host draws for a nonce of our own.
#[derive(Clone, Copy, Debug, PartialEq, Eq)]
pub struct FreshNonce {
    pub bytes: [u8; 16],
}

// The hash of a certificate, as the host works it out.
#[derive(Clone, Copy, Debug, PartialEq, Eq)]
pub struct Hash {
    pub bytes: [u8; 32],
}

// The id that is not set. Each of the three is of another type, and each public contract stays.
pub fn no_id() -> TransactionId
    ensures { result ≡ no_id }
{
    TransactionId {
        bytes: [0u8; TransactionTable::ID_BYTES],
    }
}

// The nonce that is not set.
pub fn no_nonce() -> Nonce
    ensures { result ≡ no_nonce }
{
    Nonce { bytes: [0u8; 16] }
}

// The hash that is not set.
pub fn no_hash() -> Hash
    ensures { result ≡ no_hash }
{
    Hash { bytes: [0u8; 32] }
}

impl FreshNonce {
    // As it is sent and kept.
    pub fn nonce(self) -> Nonce
        ensures { result ≡ nonce_from self }
    {
        // By a variable: the check takes no array straight from a field into a literal.
        let bytes = self.bytes;
        Nonce { bytes }
    }
}

// The protection of a message (01's verdict): good, with the board whose key checked; none where it is bad.
pub type Verdict = Option<Board>;

// What the host hands to the registrar with a message: its verdict and a fresh nonce.
#[derive(Clone, Copy)]
pub struct RegistrarInput {
    pub verdict: Verdict,
    pub nonce: FreshNonce,
}

// What the host hands to an end entity with a message: whether the registrar's key checked, whether the certificate
// is accepted, its hash, and a fresh nonce.
#[derive(Clone, Copy)]
pub struct EndEntityInput {
    pub good: bool,
    pub accept: bool,
    pub hash: Hash,
    pub nonce: FreshNonce,
}

// The registrar's states of a transaction, under 01's names. Free: the slot holds none.
#[derive(Clone, Copy, Debug, PartialEq, Eq)]
pub enum TransactionState {
    Free,
    Asked,
    Granted,
    Confirmed,
    Declined,
    Refused,
    Lapsed,
}

// A transaction at the registrar (01's record in the book): `taken` is the last board nonce taken, `sent` the last
// response nonce sent. What is not set is zero, and the state tells; no Options: the definitions and the C header have zeros.
#[derive(Clone, Copy)]
pub struct Transaction {
    pub id: TransactionId,
    pub board: Board,
    pub kind: u8,
    pub taken: Nonce,
    pub sent: Nonce,
    pub hash: Hash,
    pub state: TransactionState,
}

impl Transaction {
    // What a free slot holds.
    pub fn free() -> Transaction
        ensures { result ≡ free_transaction }
    {
        Transaction {
            id: no_id(),
            board: Board(0),
            kind: 0,
            taken: no_nonce(),
            sent: no_nonce(),
            hash: no_hash(),
            state: TransactionState::Free,
        }
    }
}

// The registrar's table (01's book). It owns the limits and the empty beginning.
#[derive(Clone, Copy)]
pub struct TransactionTable {
    pub transactions: [Transaction; TransactionTable::CAPACITY],
}

impl TransactionTable {
    pub const CAPACITY: usize = 16;

    pub const ID_BYTES: usize = 16;

    pub const MESSAGE_BYTES: usize = message::MAX_MESSAGE;

    // The table with every slot free.
    #[tactic(auto, unfolding(crate::specs::Table::empty_table))]
    pub fn empty() -> TransactionTable
        ensures { result ≡ empty_table }
    {
        TransactionTable {
            transactions: [Transaction::free(); TransactionTable::CAPACITY],
        }
    }
}

// An end entity's states of an enrolment, under 01's names.
#[derive(Clone, Copy, Debug, PartialEq, Eq)]
pub enum EnrolmentState {
    Asked,
    Confirming,
    Declining,
    Sure,
    Declined,
    Failed,
    Unsettled,
}

// An enrolment at an end entity (01's board record): `last` is the last nonce it sent, `taken` the senderNonce of the
// response that its certConf answers. What is not set is zero, as in Transaction.
#[derive(Clone, Copy)]
pub struct Enrolment {
    pub id: TransactionId,
    pub kind: u8,
    pub last: Nonce,
    pub taken: Nonce,
    pub hash: Hash,
    pub state: EnrolmentState,
}

impl Enrolment {
    // What stands where there is none: it takes nothing.
    pub fn none() -> Enrolment
        ensures { result ≡ no_enrolment }
    {
        Enrolment {
            id: no_id(),
            kind: 0,
            last: no_nonce(),
            taken: no_nonce(),
            hash: no_hash(),
            state: EnrolmentState::Failed,
        }
    }
}

// A PKIFailureInfo bit, or none. Bit 0 is badAlg, so none is a case of its own.
pub type FailureInfo = Option<u8>;

// What only some kinds carry: a status and a certReqId where their flags say so, a hash in a certConf, a bit in an error.
// Flags and no Options: the definitions of specs/Outgoing.antt name these fields.
#[derive(Clone, Copy)]
pub struct OutgoingContents {
    pub has_status: bool,
    pub status: u32,
    pub hash: Hash,
    pub failure: FailureInfo,
    pub has_number: bool,
    pub number: u32,
}

// A message to be sent (01's order). The recipNonce is there where its flag says so.
// A flag and no Option: the definitions of specs/Outgoing.antt name these fields.
#[derive(Clone, Copy)]
pub struct Outgoing {
    pub kind: u8,
    pub id: TransactionId,
    pub sender_nonce: Nonce,
    pub has_recip_nonce: bool,
    pub recip_nonce: Nonce,
    pub contents: OutgoingContents,
}

// How a call ended: done; the same answer given again, with no change; or refused, with its number and bit. The number is that
// of the C header and of the definitions, so it is no enum.
#[derive(Clone, Copy, Debug, PartialEq, Eq)]
pub enum Outcome {
    Done,
    Again,
    Refused(u8, FailureInfo),
}

// A registrar call's answer: how it ended, the reader's fault where the message does not read (else zeros), the slot it was
// about (0 where it was refused), what is to be sent, if anything, and the next table. Fault and slot are no Options: in the bytes of
// the C header nothing tells 0 from none (`registrar_answer_of` of crates/packed).
#[derive(Clone, Copy)]
pub struct RegistrarAnswer {
    pub outcome: Outcome,
    pub fault: ReadFault,
    pub slot: Slot,
    pub outgoing: Option<Outgoing>,
    pub table: TransactionTable,
}

// An end entity call's answer: how it ended, the reader's fault where the message does not read (else zeros), what is to be
// sent, if anything, and the next enrolment. The fault is no Option, as in the registrar's.
#[derive(Clone, Copy)]
pub struct EndEntityAnswer {
    pub outcome: Outcome,
    pub fault: ReadFault,
    pub outgoing: Option<Outgoing>,
    pub enrolment: Enrolment,
}
