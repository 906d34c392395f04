// The places of the fields in lent bytes: each is the one before and its width.
use protocol::TransactionTable;

// Widths in bytes.
pub(crate) const ID_BYTES: usize = TransactionTable::ID_BYTES;

pub(crate) const NONCE_BYTES: usize = 16;

pub(crate) const HASH_BYTES: usize = 32;

pub(crate) const BOARD_BYTES: usize = 2;

pub(crate) const KIND_BYTES: usize = 1;

pub(crate) const STATE_BYTES: usize = 1;

pub(crate) const FLAG_BYTES: usize = 1;

pub(crate) const STATUS_BYTES: usize = 4;

pub(crate) const BIT_BYTES: usize = 1;

pub(crate) const NUMBER_BYTES: usize = 4;

pub(crate) const CODE_BYTES: usize = 1;

pub(crate) const REFUSAL_BYTES: usize = 1;

pub(crate) const FAULT_BYTES: usize = 1;

pub(crate) const OFFSET_BYTES: usize = 8;

pub(crate) const RULE_BYTES: usize = 1;

pub(crate) const SLOT_NUMBER_BYTES: usize = 1;

// A transaction, from the start of its slot.
pub(crate) const TRANSACTION_ID: usize = 0;

pub(crate) const TRANSACTION_BOARD: usize = TRANSACTION_ID + ID_BYTES;

pub(crate) const TRANSACTION_KIND: usize = TRANSACTION_BOARD + BOARD_BYTES;

pub(crate) const TRANSACTION_TAKEN: usize = TRANSACTION_KIND + KIND_BYTES;

pub(crate) const TRANSACTION_SENT: usize = TRANSACTION_TAKEN + NONCE_BYTES;

pub(crate) const TRANSACTION_HASH: usize = TRANSACTION_SENT + NONCE_BYTES;

pub(crate) const TRANSACTION_STATE: usize = TRANSACTION_HASH + HASH_BYTES;

pub(crate) const TRANSACTION_END: usize = TRANSACTION_STATE + STATE_BYTES;

// An enrolment.
pub(crate) const ENROLMENT_ID: usize = 0;

pub(crate) const ENROLMENT_KIND: usize = ENROLMENT_ID + ID_BYTES;

pub(crate) const ENROLMENT_LAST: usize = ENROLMENT_KIND + KIND_BYTES;

pub(crate) const ENROLMENT_TAKEN: usize = ENROLMENT_LAST + NONCE_BYTES;

pub(crate) const ENROLMENT_HASH: usize = ENROLMENT_TAKEN + NONCE_BYTES;

pub(crate) const ENROLMENT_STATE: usize = ENROLMENT_HASH + HASH_BYTES;

pub(crate) const ENROLMENT_END: usize = ENROLMENT_STATE + STATE_BYTES;

// A message to be sent, from its own start.
pub(crate) const OUTGOING_KIND: usize = 0;

pub(crate) const OUTGOING_ID: usize = OUTGOING_KIND + KIND_BYTES;

pub(crate) const OUTGOING_SENDER_NONCE: usize = OUTGOING_ID + ID_BYTES;

pub(crate) const OUTGOING_HAS_RECIP_NONCE: usize = OUTGOING_SENDER_NONCE + NONCE_BYTES;

pub(crate) const OUTGOING_RECIP_NONCE: usize = OUTGOING_HAS_RECIP_NONCE + FLAG_BYTES;

pub(crate) const OUTGOING_HAS_STATUS: usize = OUTGOING_RECIP_NONCE + NONCE_BYTES;

pub(crate) const OUTGOING_STATUS: usize = OUTGOING_HAS_STATUS + FLAG_BYTES;

pub(crate) const OUTGOING_HASH: usize = OUTGOING_STATUS + STATUS_BYTES;

pub(crate) const OUTGOING_FAILURE: usize = OUTGOING_HASH + HASH_BYTES;

pub(crate) const OUTGOING_HAS_NUMBER: usize = OUTGOING_FAILURE + BIT_BYTES;

pub(crate) const OUTGOING_NUMBER: usize = OUTGOING_HAS_NUMBER + FLAG_BYTES;

pub(crate) const OUTGOING_END: usize = OUTGOING_NUMBER + NUMBER_BYTES;

// An answer: first what both ends say, then each end's own.
pub(crate) const ANSWER_CODE: usize = 0;

pub(crate) const ANSWER_REFUSAL: usize = ANSWER_CODE + CODE_BYTES;

pub(crate) const ANSWER_BIT: usize = ANSWER_REFUSAL + REFUSAL_BYTES;

pub(crate) const ANSWER_FAULT: usize = ANSWER_BIT + BIT_BYTES;

pub(crate) const ANSWER_OFFSET: usize = ANSWER_FAULT + FAULT_BYTES;

pub(crate) const ANSWER_RULE: usize = ANSWER_OFFSET + OFFSET_BYTES;

pub(crate) const ANSWER_OWN: usize = ANSWER_RULE + RULE_BYTES;

pub(crate) const REGISTRAR_SLOT: usize = ANSWER_OWN;

pub(crate) const REGISTRAR_SENDS: usize = REGISTRAR_SLOT + SLOT_NUMBER_BYTES;

pub(crate) const REGISTRAR_OUTGOING: usize = REGISTRAR_SENDS + FLAG_BYTES;

pub(crate) const REGISTRAR_END: usize = REGISTRAR_OUTGOING + OUTGOING_END;

pub(crate) const END_ENTITY_SENDS: usize = ANSWER_OWN;

pub(crate) const END_ENTITY_OUTGOING: usize = END_ENTITY_SENDS + FLAG_BYTES;

pub(crate) const END_ENTITY_END: usize = END_ENTITY_OUTGOING + OUTGOING_END;
