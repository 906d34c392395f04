// The kinds of message: which enrol, open and start, and how they pair. A kind stays a u8 and is no enum: C and lent tables
// hand in any byte as a kind.
ghost use Rattle.std.specs.Prelude.{◌≡◌};
ghost use Rattle.protocol.specs.Message.{is_enrolment_kind, is_response, is_opening_kind, is_starting_kind, response_to, request_number};

// The kinds by their numbers in PKIBody (RFC 9810 5.1.2): the requests and the responses,
pub const IR: u8 = 0;

pub const IP: u8 = 1;

pub const CR: u8 = 2;

pub const CP: u8 = 3;

// the request that carries no certReqId,
pub const P10CR: u8 = 4;

pub const KUR: u8 = 7;

pub const KUP: u8 = 8;

// and the kinds that are neither.
pub const PKI_CONF: u8 = 19;

pub const ERROR: u8 = 23;

pub const CERT_CONF: u8 = 24;

// What is given for a kind that no pair names.
const UNPAIRED: u8 = CP;

// The requests that enrol.
pub fn is_enrolment_kind(kind: u8) -> bool
    ensures { result ≡ is_enrolment_kind kind }
{
    matches!(kind, IR | CR | P10CR | KUR)
}

pub fn is_response(kind: u8) -> bool
    ensures { result ≡ is_response kind }
{
    matches!(kind, IP | CP | KUP)
}

// What opens a transaction at the registrar. The same as what an end entity starts with, but the definitions have both.
pub fn is_opening_kind(kind: u8) -> bool
    ensures { result ≡ is_opening_kind kind }
{
    is_enrolment_kind(kind)
}

// What an end entity starts with.
pub fn is_starting_kind(request: u8) -> bool
    ensures { result ≡ is_starting_kind request }
{
    is_enrolment_kind(request)
}

// The kind of the response to a request.
pub fn response_to(request: u8) -> u8
    ensures { result ≡ response_to request }
{
    match request {
        IR => IP,
        CR | P10CR => CP,
        KUR => KUP,
        _ => UNPAIRED,
    }
}

// -1 in four bytes, two's complement.
const MINUS_ONE: u32 = u32::MAX;

// The certReqId of a transaction of this kind.
pub fn request_number(kind: u8) -> u32
    ensures { result ≡ request_number kind }
{
    if kind == P10CR { MINUS_ONE } else { 0 }
}
