// The call that reads a stored procedure call: the number of the asked parameter, then the request.
use crate::{lines, replies};
use cells::TypeInfo;
use rpc::{Parameter, Procedure};
use std::io;
use std::io::Write;
use wire::Part;

// The bytes of the number before the request.
const NUMBER: usize = 4;

// The procedure, the flags, the statement if there is one, and the parameter.
pub(crate) fn answer(input: &[u8], out: &mut impl Write) -> io::Result<()> {
    let number = wire::get_u32_le(input, 0) as usize;
    let rest = Part {
        start: NUMBER,
        len: wire::left(input, NUMBER),
    };
    let body = wire::part_of(input, rest);
    match rpc::parse_rpc_request(body, number) {
        Ok(call) => {
            procedure_line(body, call.procedure, out)?;
            flags_line(call.flags, out)?;
            statement_line(body, call.statement, out)?;
            asked_lines(body, call.asked, out)
        },
        Err(refusal) => lines::refused(out, refusal),
    }
}

// proc name START LENGTH HEX, or proc number N
fn procedure_line(body: &[u8], procedure: Procedure, out: &mut impl Write) -> io::Result<()> {
    match procedure {
        Procedure::Name(name) => lines::held_line(out, b"proc name", body, name),
        Procedure::Number(n) => lines::number_line(out, b"proc number", n as u64),
    }
}

// flags HHHH
fn flags_line(flags: u16, out: &mut impl Write) -> io::Result<()> {
    lines::text(out, b"flags")?;
    lines::word(out, flags)?;
    lines::end(out)
}

// statement START LENGTH HEX, where there is one
fn statement_line(body: &[u8], statement: Option<Part>, out: &mut impl Write) -> io::Result<()> {
    match statement {
        Some(held) => lines::held_line(out, b"statement", body, held),
        None => Ok(()),
    }
}

// param START LENGTH HEX status HH type CODE LENGTH COLLATION and the value, or param none
fn asked_lines(body: &[u8], asked: Option<Parameter>, out: &mut impl Write) -> io::Result<()> {
    match asked {
        Some(parameter) => parameter_lines(body, parameter, out),
        None => lines::text(out, b"param none\n"),
    }
}

fn parameter_lines(body: &[u8], parameter: Parameter, out: &mut impl Write) -> io::Result<()> {
    lines::held(out, b"param", body, parameter.name)?;
    lines::text(out, b" status")?;
    lines::bytes(out, &[parameter.status])?;
    type_words(body, parameter.info, out)?;
    replies::cell_line(body, true, parameter.value, out)
}

fn type_words(body: &[u8], info: TypeInfo, out: &mut impl Write) -> io::Result<()> {
    lines::text(out, b" type")?;
    lines::bytes(out, &[info.code])?;
    lines::number(out, info.limit as u64)?;
    lines::bytes(out, wire::part_of(body, info.collation))?;
    lines::end(out)
}
