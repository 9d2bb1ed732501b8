// Stored procedure calls.
ghost use Rattle.std.specs.Prelude.{◌≡◌};
ghost use Rattle.station.specs.Answer.{answers, answer_of, slots_of};
ghost use Rattle.station.specs.Procedures.{named_slot, name_part, number_slot, statement_part, found_slot, parameter_of, case_slot, bits_slot, value_part, no_part, call_slots, rpc_call};

use crate::slots::{answered, refused};
use crate::steps::bits;
use cells::{TypeInfo, Value};
use rpc::{Call, Parameter, Procedure};
use wire::Part;

// The start of a part that is not there: no part has it.
const NO_START: usize = usize::MAX;

// 0: the procedure, the flags, the statement, and the parameter of a number, from 0.
#[unsafe(no_mangle)]
pub extern "C" fn station_parse_rpc_request(body: &[u8], number: u64, out: &mut [u64]) -> i64
    ensures value { result ≡ answer_of (rpc_call body.now number) out.old }
    ensures out_after { out.new ≡ slots_of (rpc_call body.now number) out.old }
{
    match rpc::parse_rpc_request(body, number as usize) {
        Ok(call) => tell_call(call, out),
        Err(refusal) => refused(refusal.number()),
    }
}

fn tell_call(call: Call, out: &mut [u64]) -> i64
    ensures value { result ≡ answer_of (answers 0 (call_slots call)) out.old }
    ensures out_after { out.new ≡ slots_of (answers 0 (call_slots call)) out.old }
{
    let named = name_part(call.procedure);
    let run = statement_part(call.statement);
    let parameter = parameter_of(call.asked);
    let name = parameter.name;
    let info = parameter.info;
    let held = value_part(parameter.value);
    let values = [
        named_slot(call.procedure),
        named.start as u64,
        named.len as u64,
        number_slot(call.procedure),
        call.flags as u64,
        run.start as u64,
        run.len as u64,
        found_slot(call.asked),
        name.start as u64,
        name.len as u64,
        parameter.status as u64,
        info.code as u64,
        info.limit as u64,
        info.collation.start as u64,
        info.collation.len as u64,
        case_slot(parameter.value),
        bits_slot(parameter.value),
        held.start as u64,
        held.len as u64,
    ];
    answered(out, 0, &values)
}

// 1 of a procedure that is called by its name, 0 of one by its number.
fn named_slot(procedure: Procedure) -> u64
    ensures { result ≡ named_slot procedure }
{
    match procedure {
        Procedure::Name(_) => 1,
        Procedure::Number(_) => 0,
    }
}

// A procedure's name, and its number; 0 for the one that it is not called by.
fn name_part(procedure: Procedure) -> Part
    ensures { result ≡ name_part procedure }
{
    match procedure {
        Procedure::Name(name) => name,
        Procedure::Number(_) => no_part(),
    }
}

fn number_slot(procedure: Procedure) -> u64
    ensures { result ≡ number_slot procedure }
{
    match procedure {
        Procedure::Name(_) => 0,
        Procedure::Number(n) => n as u64,
    }
}

fn statement_part(statement: Option<Part>) -> Part
    ensures { result ≡ statement_part statement }
{
    statement.unwrap_or(Part {
        start: NO_START,
        len: 0,
    })
}

// 1 where there is a parameter of the number, else 0.
fn found_slot(asked: Option<Parameter>) -> u64
    ensures { result ≡ found_slot asked }
{
    match asked {
        Some(_) => 1,
        None => 0,
    }
}

// The parameter of the number; where there is none, one that is 0 in every slot.
fn parameter_of(asked: Option<Parameter>) -> Parameter
    ensures { result ≡ parameter_of asked }
{
    match asked {
        Some(parameter) => parameter,
        None => Parameter {
            name: no_part(),
            status: 0,
            info: TypeInfo {
                code: 0,
                limit: 0,
                collation: no_part(),
            },
            value: Value::Null,
        },
    }
}

// A value's case, its number in two's complement, and its part; 0 for what it does not have.
fn case_slot(value: Value) -> u64
    ensures { result ≡ case_slot value }
{
    match value {
        Value::Null => 0,
        Value::Number(_) => 1,
        Value::Part(_) => 2,
        Value::Max(_) => 3,
    }
}

fn bits_slot(value: Value) -> u64
    ensures { result ≡ bits_slot value }
{
    match value {
        Value::Number(n) => bits(n),
        Value::Part(_) => 0,
        Value::Max(_) => 0,
        Value::Null => 0,
    }
}

fn value_part(value: Value) -> Part
    ensures { result ≡ value_part value }
{
    match value {
        Value::Part(part) => part,
        Value::Max(part) => part,
        Value::Number(_) => no_part(),
        Value::Null => no_part(),
    }
}

// The slots of a part that does not apply.
fn no_part() -> Part
    ensures { result ≡ no_part }
{
    Part { start: 0, len: 0 }
}
