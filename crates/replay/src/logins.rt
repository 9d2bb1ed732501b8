// Logins, and the database to open.
use crate::{calls, spaces, told, words};
use login::{Login, Read};
use refusals::Refusal;
use wire::Part;

// What a login holds where a byte or a text is none (include/station.h).
const NO_BYTE: u64 = 256;

const NO_START: u64 = u64::MAX;

// `parse_login7 IDS BODY`: so many ids are lent. Fedauth, library, workflow, classification version, session, start and
// length of token, server, user agent and database, then the number of ids and each of them.
pub(crate) fn parse(line: &[u8], input: &[u8], out: &mut [u8]) -> usize {
    let mut ids = spaces::patterned();
    let lent = words::u64_at(line, 1) as usize;
    match parse_lent(input, &mut ids, lent) {
        Ok(read) => tell_read(read, &ids, out),
        Err(refusal) => {
            let at = told::refused(out, 0, refusal);
            calls::tell_spilled(&ids, 0, out, at)
        }
    }
}

// A login with its ids, the first of those in the buffer.
fn tell_read(read: Read, ids: &[u8], out: &mut [u8]) -> usize {
    let at = tell_login(read.login, out);
    let at = told::number(out, at, read.ids as u64);
    let at = tell_ids(wire::part_of(ids, calls::first(read.ids)), out, at);
    calls::tell_spilled(ids, read.ids, out, at)
}

fn parse_lent(body: &[u8], ids: &mut [u8], lent: usize) -> Result<Read, Refusal> {
    if lent < ids.len() {
        return login::parse_login7(body, &mut ids[..lent]);
    }
    login::parse_login7(body, ids)
}

fn tell_login(login: Login, out: &mut [u8]) -> usize {
    let values = [
        told::flag(login.has_fedauth),
        login.fedauth_library as u64,
        byte(login.fedauth_workflow),
        byte(login.data_classification_version),
        told::flag(login.session),
    ];
    let at = told::numbers(out, 0, &values);
    tell_texts(login, out, at)
}

fn tell_texts(login: Login, out: &mut [u8], at: usize) -> usize {
    let at = tell_text(login.access_token_bytes, out, at);
    let at = tell_text(login.server_name, out, at);
    let at = tell_text(login.user_agent, out, at);
    tell_text(login.database, out, at)
}

fn byte(value: Option<u8>) -> u64 {
    value.map_or(NO_BYTE, |n| n as u64)
}

fn tell_text(text: Option<Part>, out: &mut [u8], at: usize) -> usize {
    match text {
        Some(part) => told::numbers(out, at, &[part.start as u64, part.len as u64]),
        None => told::numbers(out, at, &[NO_START, 0]),
    }
}

fn tell_ids(ids: &[u8], out: &mut [u8], from: usize) -> usize {
    let mut at = from;
    for id in ids {
        at = told::number(out, at, u64::from(*id));
    }
    at
}

// `database FALLBACK BODY`: whether the database to open is the bytes that the line holds.
pub(crate) fn database(line: &[u8], body: &[u8]) -> bool {
    let mut fallback = spaces::zeros();
    let n = words::bytes_at(line, 1, &mut fallback);
    calls::same_bytes(
        line,
        login::database(body, wire::part_of(&fallback, calls::first(n))),
    )
}
