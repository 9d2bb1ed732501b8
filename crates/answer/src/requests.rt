// The calls that read a request.
use crate::lines;
use request::Descriptor;
use std::io;
use std::io::Write;

// text START LENGTH HEX
pub(crate) fn batch(input: &[u8], out: &mut impl Write) -> io::Result<()> {
    match request::parse_sql_batch(input) {
        Ok(part) => lines::held_line(out, b"text", input, part),
        Err(refusal) => lines::refused(out, refusal),
    }
}

// type N
pub(crate) fn transaction(input: &[u8], out: &mut impl Write) -> io::Result<()> {
    match request::parse_transaction_manager_request(input) {
        Ok(kind) => lines::number_line(out, b"type", kind as u64),
        Err(refusal) => lines::refused(out, refusal),
    }
}

// found DESCRIPTOR COUNT, or none
pub(crate) fn descriptor(input: &[u8], out: &mut impl Write) -> io::Result<()> {
    match request::parse_transaction_descriptor_header(input) {
        Some(found) => found_line(found, out),
        None => lines::text(out, b"none\n"),
    }
}

fn found_line(found: Descriptor, out: &mut impl Write) -> io::Result<()> {
    lines::text(out, b"found")?;
    lines::numbers(out, &[found.descriptor, found.count as u64])?;
    lines::end(out)
}

// token START LENGTH
pub(crate) fn fedauth(input: &[u8], out: &mut impl Write) -> io::Result<()> {
    match request::parse_fedauth_token(input) {
        Ok(part) => lines::part_line(out, b"token", part),
        Err(refusal) => lines::refused(out, refusal),
    }
}
