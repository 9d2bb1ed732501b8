// The call that reads a login.
use crate::lines;
use login::Login;
use std::io;
use std::io::Write;
use wire::Part;

// The most features that an input can hold, of five bytes or more each.
const MOST_FEATURES: usize = 13107;

// Ten lines; `none` stands where there is no number or no part.
pub(crate) fn answer(input: &[u8], out: &mut impl Write) -> io::Result<()> {
    let mut ids = [0u8; MOST_FEATURES];
    match login::parse_login7(input, &mut ids) {
        Ok(read) => {
            fedauth_lines(read.login, out)?;
            other_lines(read.login, out)?;
            let held = Part {
                start: 0,
                len: read.ids,
            };
            features_line(wire::part_of(&ids, held), out)
        }
        Err(refusal) => lines::refused(out, refusal),
    }
}

// fedauth B, library N, workflow N, token START LENGTH
fn fedauth_lines(login: Login, out: &mut impl Write) -> io::Result<()> {
    flag_line(out, b"fedauth ", login.has_fedauth)?;
    lines::number_line(out, b"library", login.fedauth_library as u64)?;
    byte_line(out, b"workflow", login.fedauth_workflow)?;
    text_line(out, b"token", login.access_token_bytes)
}

// server START LENGTH, useragent START LENGTH, classversion N, database START LENGTH, session B
fn other_lines(login: Login, out: &mut impl Write) -> io::Result<()> {
    text_line(out, b"server", login.server_name)?;
    text_line(out, b"useragent", login.user_agent)?;
    byte_line(out, b"classversion", login.data_classification_version)?;
    text_line(out, b"database", login.database)?;
    flag_line(out, b"session ", login.session)
}

// features COUNT HEX
fn features_line(ids: &[u8], out: &mut impl Write) -> io::Result<()> {
    lines::text(out, b"features")?;
    lines::number(out, ids.len() as u64)?;
    lines::bytes(out, ids)?;
    lines::end(out)
}

fn flag_line(out: &mut impl Write, word: &[u8], set: bool) -> io::Result<()> {
    lines::flag(out, word, set)?;
    lines::end(out)
}

fn byte_line(out: &mut impl Write, word: &[u8], byte: Option<u8>) -> io::Result<()> {
    match byte {
        Some(n) => lines::number_line(out, word, n as u64),
        None => none_line(out, word),
    }
}

fn text_line(out: &mut impl Write, word: &[u8], text: Option<Part>) -> io::Result<()> {
    match text {
        Some(part) => lines::part_line(out, word, part),
        None => none_line(out, word),
    }
}

// A line that says that there is none.
fn none_line(out: &mut impl Write, word: &[u8]) -> io::Result<()> {
    lines::text(out, word)?;
    lines::text(out, b" none\n")
}
