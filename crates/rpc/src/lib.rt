// Stored procedure calls (MS-TDS 2.2.6.6, RPC Request): the procedure, the flags, one parameter by its number, and the
// statement of sp_executesql. Any bytes are answered.
#![tactic(auto)]

ghost use Rattle.std.specs.Prelude.{◌≡◌, ◌||◌, suc, eqb, length};
ghost use Rattle.packet.specs.Status.{has_bit};
ghost use Rattle.payload.specs.Places.{body_source, part_to};
ghost use Rattle.payload.specs.Frames.{source_from};
ghost use Rattle.payload.specs.Answers.{number_read, part_read, Below};
ghost use Rattle.refusals.specs.Refused.{number, numbered};
ghost use Rattle.rpc.specs.Rpc.{in_metadata, procedure_at, head_at, name_at, status_at, metadata_at, value_at, parameter_at, parameters_at, runs_statement, call_at, value_bytes, told, rpc_of};
ghost use Rattle.rpc.specs.Answers.{placed, parameter_read, parameters_read, seen_with, told_of};

use cells::{TypeInfo, Value, cell_at, type_at};
use payload::frames::Frame;
use payload::{NumberAt, PartAt, frames, part_at, u8_at, u16_at};
use refusals::Refusal;
use request::HeadersFault;
use wire::Part;

// The length of a procedure's name that says that its number follows.
const BY_NUMBER: u64 = 0xFFFF;

// The number of sp_executesql, whose first parameter is the statement that it runs.
const SP_EXECUTESQL: u16 = 10;

// Where a parameter's name would begin: the marks after which a second call follows.
const NO_EXEC_FLAG: u64 = 0xFE;

const BATCH_FLAG: u64 = 0xFF;

// The status bit of an encrypted parameter.
const ENCRYPTED: u8 = 0x08;

// A procedure by its name, a part of the request, or by its number.
#[derive(Clone, Copy)]
pub enum Procedure {
    Name(Part),
    Number(u16),
}

// A parameter. Its name is a part of the request, and so are its collation and a text's value.
#[derive(Clone, Copy)]
pub struct Parameter {
    pub name: Part,
    pub status: u8,
    pub info: TypeInfo,
    pub value: Value,
}

// What is answered of a call: one parameter, if there is one of the number, and of sp_executesql the value bytes of its first
// parameter, as a part of the request; other procedures have no statement.
#[derive(Clone, Copy)]
pub struct Call {
    pub procedure: Procedure,
    pub flags: u16,
    pub asked: Option<Parameter>,
    pub statement: Option<Part>,
}

// What a request calls, with its parameter of a number, from 0.
pub fn parse_rpc_request(body: &[u8], number: usize) -> Result<Call, Refusal>
    ensures { numbered result ≡ rpc_of body.now number }
{
    match request::all_headers(body) {
        Err(HeadersFault::Short) => Err(Refusal::CallCut),
        Err(HeadersFault::TooSmall) => Err(Refusal::HeadersTooSmall),
        Err(HeadersFault::PastEnd) => Err(Refusal::CallCut),
        Ok(at) => call_at(body, at, number),
    }
}

// The call from a place on.
fn call_at(body: &[u8], at: usize, number: usize) -> Result<Call, Refusal>
    ensures { numbered result ≡ told number (call_at (body_source body.now) at) }
{
    let frame = frames::body(body);
    let (head, next) = head_at(body, frame, at).map_err(|_| Refusal::CallCut)?;
    let seen = parameters_at(body, next, number)?;
    tell(head, seen)
}

// What is answered of a call that was read whole: one that runs a statement has it.
fn tell(head: Head, seen: Seen) -> Result<Call, Refusal>
    ensures { numbered result ≡ told_of head seen }
{
    let call = Call {
        procedure: head.procedure,
        flags: head.flags,
        asked: seen.asked,
        statement: None,
    };
    if !runs_statement(head.procedure) {
        return Ok(call);
    }
    let first = seen.first.ok_or(Refusal::ParameterCut)?;
    Ok(Call {
        statement: Some(first),
        ..call
    })
}

fn runs_statement(procedure: Procedure) -> bool
    ensures { result ≡ runs_statement procedure }
{
    match procedure {
        Procedure::Name(_) => false,
        Procedure::Number(n) => n == SP_EXECUTESQL,
    }
}

// ---- the head: what was read of it comes with the place after it

// The procedure and the flags of a call.
#[derive(Clone, Copy)]
struct Head {
    procedure: Procedure,
    flags: u16,
}

fn head_at(body: &[u8], frame: Frame, at: usize) -> Result<(Head, usize), Refusal>
    ensures { numbered result ≡ placed (head_at (source_from body.now frame) at) }
{
    let (procedure, next) = procedure_at(body, frame, at)?;
    let flags = u16_at(body, frame, next)?;
    let head = Head {
        procedure,
        flags: flags.value as u16,
    };
    Ok((head, flags.next))
}

// A name after its length in units, or a number after the length that stands for none.
fn procedure_at(body: &[u8], frame: Frame, at: usize) -> Result<(Procedure, usize), Refusal>
    ensures { numbered result ≡ placed (procedure_at (source_from body.now frame) at) }
{
    let units = u16_at(body, frame, at)?;
    if units.value == BY_NUMBER {
        let number = u16_at(body, frame, units.next)?;
        return Ok((Procedure::Number(number.value as u16), number.next));
    }
    let name = part_at(body, frame, units.next, 2 * (units.value as usize))?;
    Ok((Procedure::Name(name.part), name.next))
}

// ---- parameters

// What the parameters passed so far answer: the one that was asked for, and the first one's value.
#[derive(Clone, Copy)]
struct Seen {
    asked: Option<Parameter>,
    first: Option<Part>,
}

// The parameters from a place up to the body's end. Of those that are neither asked for nor the first, nothing is kept.
fn parameters_at(body: &[u8], start: usize, number: usize) -> Result<Seen, Refusal>
    ensures { numbered result ≡ parameters_read number (parameters_at (suc (length body.now)) (body_source body.now) start) }
{
    let frame = frames::body(body);
    let mut at = start;
    let mut count = 0;
    let mut seen = Seen {
        asked: None,
        first: None,
    };
    while at < body.len() {
        let read = parameter_at(body, frame, at)?;
        if (count == number) | (count == 0) {
            seen = seen_with(seen, count == number, count == 0, read);
        }
        count += 1;
        at = read.next;
    }
    Ok(seen)
}

// With a parameter more, which is the one that was asked for or not, and the first or not.
fn seen_with(seen: Seen, is_asked: bool, is_first: bool, read: ParameterAt) -> Seen
    ensures { result ≡ seen_with seen is_asked is_first read }
{
    let asked = if is_asked {
        Some(read.parameter)
    } else {
        seen.asked
    };
    let first = if is_first {
        Some(value_bytes(read))
    } else {
        seen.first
    };
    Seen { asked, first }
}

// The bytes of a parameter's value, which ends where the parameter does.
fn value_bytes(read: ParameterAt) -> Part
    ensures { result ≡ value_bytes read }
{
    let end = read.next;
    let limit = read.parameter.info.limit as usize;
    match read.parameter.value {
        Value::Number(_) => part_to(end.saturating_sub(limit), end),
        Value::Part(part) => part,
        Value::Max(part) => part,
        Value::Null => part_to(end, end),
    }
}

fn part_to(from: usize, to: usize) -> Part
    ensures { result ≡ part_to from to }
{
    Part {
        start: from,
        len: to.saturating_sub(from),
    }
}

// ---- a parameter

// A parameter, with the place after it.
#[derive(Clone, Copy)]
struct ParameterAt {
    parameter: Parameter,
    next: usize,
}

// A parameter's name, status and type.
#[derive(Clone, Copy)]
struct Metadata {
    name: Part,
    status: u8,
    info: TypeInfo,
}

// The parameter at a place. Its value is read as a cell of a column of its type.
fn parameter_at(body: &[u8], frame: Frame, at: usize) -> Result<ParameterAt, Refusal>
    ensures { numbered result ≡ parameter_read (parameter_at (source_from body.now frame) at) }
{
    let (metadata, next) = metadata_at(body, frame, at).map_err(in_metadata)?;
    value_at(body, frame, next, metadata)
}

fn value_at(
    body: &[u8],
    frame: Frame,
    at: usize,
    metadata: Metadata,
) -> Result<ParameterAt, Refusal>
    ensures { numbered result ≡ parameter_read (value_at (source_from body.now frame) at metadata) }
{
    let info = metadata.info;
    let cell = cell_at(body, frame, at, info.code, info.limit).map_err(|_| Refusal::ParameterCut)?;
    let parameter = Parameter {
        name: metadata.name,
        status: metadata.status,
        info,
        value: cell.value,
    };
    Ok(ParameterAt {
        parameter,
        next: cell.next,
    })
}

// A refusal of reading a parameter's metadata, as a call names it.
fn in_metadata(refusal: Refusal) -> Refusal
    ensures { number result ≡ in_metadata (number refusal) }
{
    match refusal {
        Refusal::Cut => Refusal::ParameterCut,
        _ => Refusal::ParameterNotRead,
    }
}

// A parameter's metadata, with the place after it.
fn metadata_at(body: &[u8], frame: Frame, at: usize) -> Result<(Metadata, usize), Refusal>
    ensures { numbered result ≡ placed (metadata_at (source_from body.now frame) at) }
{
    let name = name_at(body, frame, at)?;
    let status = status_at(body, frame, name.next)?;
    let read = type_at(body, frame, status.next)?;
    let metadata = Metadata {
        name: name.part,
        status: status.value as u8,
        info: read.info,
    };
    Ok((metadata, read.next))
}

// A parameter's name, after its length in units.
fn name_at(body: &[u8], frame: Frame, at: usize) -> Result<PartAt, Refusal>
    ensures { numbered result ≡ part_read (name_at (source_from body.now frame) at) }
{
    let units = u8_at(body, frame, at)?;
    if begins_call(units.value) {
        return Err(Refusal::InnerWrong);
    }
    part_at(body, frame, units.next, 2 * (units.value as usize))
}

// Whether a byte where a name would begin says that a second call follows.
fn begins_call(byte: u64) -> bool
    ensures { result ≡ (eqb byte 0xFE || eqb byte 0xFF) }
{
    (byte == NO_EXEC_FLAG) | (byte == BATCH_FLAG)
}

// A parameter's status, which is not read where it says that the parameter is encrypted.
fn status_at(body: &[u8], frame: Frame, at: usize) -> Result<NumberAt, Refusal>
    ensures { (numbered result ≡ number_read (status_at (source_from body.now frame) at)) × Below 1 result }
{
    let status = u8_at(body, frame, at)?;
    if is_encrypted(status.value as u8) {
        return Err(Refusal::InnerWrong);
    }
    Ok(status)
}

fn is_encrypted(status: u8) -> bool
    ensures { result ≡ has_bit 0x08 status }
{
    status & ENCRYPTED != 0
}
