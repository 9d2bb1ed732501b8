// Stored procedure calls.
use crate::{replies, told, words};
use rpc::{Call, Parameter, Procedure};
use wire::Part;

// `parse_rpc_request NUMBER BODY`: the parameter of the number is asked for. `name START LENGTH` or `number N`; FLAGS;
// `statement START LENGTH` where there is one; then the parameter.
pub(crate) fn parse(line: &[u8], body: &[u8], out: &mut [u8]) -> usize {
    let number = words::u64_at(line, 1) as usize;
    match rpc::parse_rpc_request(body, number) {
        Ok(call) => tell_call(call, out),
        Err(refusal) => told::refused(out, 0, refusal),
    }
}

fn tell_call(call: Call, out: &mut [u8]) -> usize {
    let at = tell_procedure(call.procedure, out);
    let at = told::number(out, at, call.flags as u64);
    let at = tell_statement(call.statement, out, at);
    tell_asked(call.asked, out, at)
}

fn tell_procedure(procedure: Procedure, out: &mut [u8]) -> usize {
    match procedure {
        Procedure::Name(name) => {
            told::words(out, 0, b"name", &[name.start as u64, name.len as u64])
        },
        Procedure::Number(n) => told::words(out, 0, b"number", &[n as u64]),
    }
}

fn tell_statement(statement: Option<Part>, out: &mut [u8], at: usize) -> usize {
    match statement {
        Some(part) => { told::words(out, at, b"statement", &[part.start as u64, part.len as u64]) },
        None => at,
    }
}

// `none`, or `param`, start and length of the name, status, code, length, start and length of the collation, the value
fn tell_asked(asked: Option<Parameter>, out: &mut [u8], at: usize) -> usize {
    match asked {
        Some(parameter) => tell_parameter(parameter, out, at),
        None => told::word(out, at, b"none"),
    }
}

fn tell_parameter(parameter: Parameter, out: &mut [u8], at: usize) -> usize {
    let name = parameter.name;
    let info = parameter.info;
    let values = [
        name.start as u64,
        name.len as u64,
        parameter.status as u64,
        info.code as u64,
        info.limit as u64,
        info.collation.start as u64,
        info.collation.len as u64,
    ];
    let at = told::words(out, at, b"param", &values);
    replies::tell_cell(parameter.value, out, at)
}
