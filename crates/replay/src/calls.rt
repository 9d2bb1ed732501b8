// The calls of a list by their names, and how an answer is held against the one that the line holds.
use crate::{
    builds, captures, headers, labels, logins, procedures, replies, requests, scripts, spaces,
    told, words,
};
use wire::Part;

// Whether the call of a line answers what the line holds.
pub(crate) fn holds(line: &[u8]) -> bool {
    let name = words::word(line, 0);
    if words::before(name, b'_') == b"build".as_slice() {
        return builds::holds(line, name);
    }
    if name == b"cut_payload".as_slice() {
        return builds::holds(line, name);
    }
    if name == b"write_header".as_slice() {
        return headers::holds(line);
    }
    if is_label(name) {
        return labels::holds(line, name);
    }
    let mut input = spaces::zeros();
    if follows_number(name) {
        let n = words::bytes_at(line, 2, &mut input);
        return told_holds(line, name, wire::part_of(&input, first(n)));
    }
    if name == b"database".as_slice() {
        let n = words::bytes_at(line, 2, &mut input);
        return logins::database(line, wire::part_of(&input, first(n)));
    }
    let n = words::bytes_at(line, 1, &mut input);
    told_holds(line, name, wire::part_of(&input, first(n)))
}

// Whether a call reads or writes an event label.
fn is_label(name: &[u8]) -> bool {
    matches!(name, b"read_label" | b"write_label")
}

// Whether a number stands between the name of a call and its input.
fn follows_number(name: &[u8]) -> bool {
    matches!(
        name,
        b"parse_login7" | b"parse_rpc_request" | b"room_in_packets" | b"capture_marks"
    )
}

// The same of a call whose answer is words.
fn told_holds(line: &[u8], name: &[u8], input: &[u8]) -> bool {
    let mut out = spaces::zeros();
    let n = tell(line, name, input, &mut out);
    words::answer(line) == wire::part_of(&out, first(n))
}

// The words of a call's answer.
fn tell(line: &[u8], name: &[u8], input: &[u8], out: &mut [u8]) -> usize {
    match name {
        b"tokens" => replies::tokens(input, out),
        b"room" => scripts::room(input, out),
        b"room_in_packets" => scripts::room_in_packets(line, input, out),
        b"fit" => scripts::fits(input, out),
        _ => tell_numbered(line, name, input, out),
    }
}

// Of logins, procedure calls and captures.
fn tell_numbered(line: &[u8], name: &[u8], input: &[u8], out: &mut [u8]) -> usize {
    match name {
        b"parse_login7" => logins::parse(line, input, out),
        b"parse_rpc_request" => procedures::parse(line, input, out),
        b"capture_marks" => captures::marks(line, input, out),
        _ => tell_request(name, input, out),
    }
}

// Of headers and texts.
fn tell_request(name: &[u8], input: &[u8], out: &mut [u8]) -> usize {
    match name {
        b"parse_header" => requests::header(input, out),
        b"is_whitespace" => requests::whitespace(input, out),
        b"text" => requests::counts(input, out),
        _ => tell_message(name, input, out),
    }
}

// Of the messages of a client.
fn tell_message(name: &[u8], input: &[u8], out: &mut [u8]) -> usize {
    match name {
        b"parse_sql_batch" => requests::batch(input, out),
        b"parse_transaction_manager_request" => requests::transaction(input, out),
        b"parse_transaction_descriptor_header" => requests::descriptor(input, out),
        b"parse_fedauth_token" => requests::fedauth(input, out),
        _ => told::word(out, 0, b"an unknown call"),
    }
}

// Whether some bytes are those that the line holds as its answer.
pub(crate) fn same_bytes(line: &[u8], bytes: &[u8]) -> bool {
    same_word(words::answer(line), bytes)
}

// Whether some bytes are those that a word stands for.
pub(crate) fn same_word(word: &[u8], bytes: &[u8]) -> bool {
    let mut expected = spaces::zeros();
    let n = words::bytes(word, &mut expected);
    bytes == wire::part_of(&expected, first(n))
}

// Whether a lent buffer still holds the pattern from a place on.
pub(crate) fn is_kept(buf: &[u8], from: usize) -> bool {
    let len = wire::left(buf, from);
    let rest = wire::part_of(buf, Part { start: from, len });
    rest.iter().all(|byte| *byte == spaces::PATTERN)
}

// A word that no line holds, where a lent buffer was written from a place on.
pub(crate) fn tell_spilled(buf: &[u8], from: usize, out: &mut [u8], at: usize) -> usize {
    if is_kept(buf, from) {
        return at;
    }
    told::word(out, at, b"spilled")
}

// The first n bytes.
pub(crate) fn first(n: usize) -> Part {
    Part { start: 0, len: n }
}
