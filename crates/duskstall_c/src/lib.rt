// What C calls: each export is the function of `duskstall` with the same name, and states its clauses again.
#![tactic(auto)]

ghost use Rattle.std.specs.Prelude.{◌≡◌, cond, length, eqb};
ghost use Rattle.fields.specs.Fields.{check_answer, read_answer, read_fields};
ghost use Rattle.duskstall.specs.Sizes.{lent_size};
ghost use Rattle.protocol.specs.Table.{empty_table};
ghost use Rattle.packed.specs.Bytes.{AllBytes};
ghost use Rattle.packed.specs.Table.{table_bytes, pack_table_in};
ghost use Rattle.duskstall.specs.Boundary.{Crosses};
ghost use Rattle.duskstall.specs.Calls.{registrar_message_crossing, issue_crossing, refuse_crossing, lapse_crossing, close_crossing, end_entity_start_crossing, end_entity_message_crossing, time_out_crossing};
ghost use Rattle.duskstall.specs.Write.{write_number, write_buffer};

// Whether all of `bytes` is whole DER elements, at most 16 deep. 0: yes; else the first fault's offset times 8 plus its rule;
// 7, which is no rule, where there are more than 4,294,967,295 bytes.
#[unsafe(no_mangle)]
pub extern "C" fn duskstall_check(bytes: &[u8]) -> u64
    ensures { result ≡ check_answer bytes.now }
{
    duskstall::duskstall_check(bytes)
}

// Reads `message`. 0: it is clean, and `fields` says where its parts are; 1 or 2: it is refused, and of 2 `fields` has the
// offset and the rule; 255: `fields` has no room, and stays as it was.
#[unsafe(no_mangle)]
pub extern "C" fn duskstall_read(message: &[u8], fields: &mut [u64]) -> u64
    ensures { (result ≡ read_answer message.now fields.old) × (fields.new ≡ read_fields message.now fields.old) }
{
    duskstall::duskstall_read(message, fields)
}

// The sizes that the calls ask for, so that a host can hold its header to the library: 0 a table, 1 an enrolment, 2 a registrar's answer, 3 an end
// entity's, 4 how many numbers a reading has, 5 the longest message. 0 for any other number.
#[unsafe(no_mangle)]
pub extern "C" fn duskstall_size(what: u8) -> u64
    ensures { result ≡ lent_size what }
{
    duskstall::duskstall_size(what)
}

// The empty table into the lent bytes. 0; or 251 where the length is not a table's, and nothing changes.
#[unsafe(no_mangle)]
pub extern "C" fn duskstall_registrar_empty(table: &mut [u8]) -> u64
    ensures { (result ≡ cond (eqb (length table.old) table_bytes) 0 251) × (table.new ≡ pack_table_in empty_table table.old) }
{
    duskstall::registrar_calls::duskstall_registrar_empty(table)
}

// A message. `good` is 1 for a good verdict, which names `board`; every other number is a bad one.
#[unsafe(no_mangle)]
pub extern "C" fn duskstall_registrar_message(
    table: &mut [u8],
    bytes: &[u8],
    good: u8,
    board: u16,
    nonce: &[u8],
    answer: &mut [u8],
) -> u64
    ensures { Crosses result table.new answer.new (registrar_message_crossing bytes.now good board nonce.now table.old answer.old) × AllBytes table.old }
{
    duskstall::registrar_calls::duskstall_registrar_message(
        table, bytes, good, board, nonce, answer,
    )
}

// issue
#[unsafe(no_mangle)]
pub extern "C" fn duskstall_registrar_issue(
    table: &mut [u8],
    id: &[u8],
    nonce: &[u8],
    hash: &[u8],
    answer: &mut [u8],
) -> u64
    ensures { Crosses result table.new answer.new (issue_crossing id.now nonce.now hash.now table.old answer.old) × AllBytes table.old }
{
    duskstall::registrar_calls::duskstall_registrar_issue(table, id, nonce, hash, answer)
}

// refuse
#[unsafe(no_mangle)]
pub extern "C" fn duskstall_registrar_refuse(
    table: &mut [u8],
    id: &[u8],
    nonce: &[u8],
    answer: &mut [u8],
) -> u64
    ensures { Crosses result table.new answer.new (refuse_crossing id.now nonce.now table.old answer.old) × AllBytes table.old }
{
    duskstall::registrar_calls::duskstall_registrar_refuse(table, id, nonce, answer)
}

// lapse
#[unsafe(no_mangle)]
pub extern "C" fn duskstall_registrar_lapse(table: &mut [u8], id: &[u8], answer: &mut [u8]) -> u64
    ensures { Crosses result table.new answer.new (lapse_crossing id.now table.old answer.old) × AllBytes table.old }
{
    duskstall::registrar_calls::duskstall_registrar_lapse(table, id, answer)
}

// close
#[unsafe(no_mangle)]
pub extern "C" fn duskstall_registrar_close(table: &mut [u8], id: &[u8], answer: &mut [u8]) -> u64
    ensures { Crosses result table.new answer.new (close_crossing id.now table.old answer.old) × AllBytes table.old }
{
    duskstall::registrar_calls::duskstall_registrar_close(table, id, answer)
}

// Starts an enrolment, which is put into the lent bytes unless the start is refused.
#[unsafe(no_mangle)]
pub extern "C" fn duskstall_end_entity_start(
    enrolment: &mut [u8],
    kind: u8,
    id: &[u8],
    nonce: &[u8],
    answer: &mut [u8],
) -> u64
    ensures { Crosses result enrolment.new answer.new (end_entity_start_crossing kind id.now nonce.now enrolment.old answer.old) }
{
    duskstall::end_entity_calls::duskstall_end_entity_start(enrolment, kind, id, nonce, answer)
}

// A message. `good`: the registrar's key checked; `accept`: the host accepts the certificate, whose hash is `hash`. Both are 1 for yes; every
// other number is no.
#[unsafe(no_mangle)]
pub extern "C" fn duskstall_end_entity_message(
    enrolment: &mut [u8],
    bytes: &[u8],
    good: u8,
    accept: u8,
    hash: &[u8],
    nonce: &[u8],
    answer: &mut [u8],
) -> u64
    ensures { Crosses result enrolment.new answer.new (end_entity_message_crossing bytes.now good accept hash.now nonce.now enrolment.old answer.old) }
{
    duskstall::end_entity_calls::duskstall_end_entity_message(
        enrolment, bytes, good, accept, hash, nonce, answer,
    )
}

// The host waited long enough.
#[unsafe(no_mangle)]
pub extern "C" fn duskstall_end_entity_time_out(enrolment: &mut [u8], answer: &mut [u8]) -> u64
    ensures { Crosses result enrolment.new answer.new (time_out_crossing enrolment.old answer.old) }
{
    duskstall::end_entity_calls::duskstall_end_entity_time_out(enrolment, answer)
}

// Writes the message that `outgoing` holds, as an answer hands it out, with the parts of `source` that `given` names, as the first bytes of
// `buffer`. Answers its size; or, in the high 32 bits, why nothing is changed: 252 for a length of `outgoing` or `given`, else the refusal.
#[unsafe(no_mangle)]
pub extern "C" fn duskstall_write(
    outgoing: &[u8],
    version: u32,
    given: &[u64],
    source: &[u8],
    buffer: &mut [u8],
) -> u64
    ensures { (result ≡ write_number outgoing.now version given.now source.now buffer.old) × (buffer.new ≡ write_buffer outgoing.now version given.now source.now buffer.old) }
{
    duskstall::writer_calls::duskstall_write(outgoing, version, given, source, buffer)
}
