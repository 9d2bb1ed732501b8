// The reply reader: a run from the fresh position, its tokens one after the other.
use crate::told;
use cells::Value;
use reader::{Position, Token};

// No run takes more steps: a token takes a byte or more, packets have at most 131,072, and then come end or refusal.
const MOST_STEPS: usize = 131073;

// The words of each token, then `end` or a refusal.
pub(crate) fn tokens(packets: &[u8], out: &mut [u8]) -> usize {
    let mut at = 0;
    let mut position = Position::fresh();
    for _ in 0..MOST_STEPS {
        let step = position.step(packets);
        match step.answer {
            Ok(Some(token)) => at = tell_token(token, out, at),
            Ok(None) => return told::word(out, at, b"end"),
            Err(refusal) => return told::refused(out, at, refusal),
        }
        position = step.next;
    }
    at
}

// 81 COUNT; col USER FLAGS CODE LIMIT COLLATION NAME; D1; a cell; FD STATUS COMMAND COUNT; AA or AB, then NUMBER STATE
// CLASS LINE TEXT SERVER PROCEDURE. Collations, names and texts are start and length.
fn tell_token(token: Token, out: &mut [u8], at: usize) -> usize {
    match token {
        Token::ColMetadata(count) => told::words(out, at, b"81", &[count as u64]),
        Token::Column {
            user_type,
            flags,
            code,
            limit,
            collation,
            name,
        } => {
            let values = [
                user_type as u64,
                flags as u64,
                code as u64,
                limit as u64,
                collation.start as u64,
                collation.len as u64,
                name.start as u64,
                name.len as u64,
            ];
            told::words(out, at, b"col", &values)
        },
        Token::Row => told::word(out, at, b"D1"),
        Token::Cell(value) => tell_cell(value, out, at),
        Token::Done {
            status,
            command,
            count,
        } => told::words(out, at, b"FD", &[status as u64, command as u64, count]),
        Token::Message {
            kind,
            number,
            state,
            class,
            text,
            server,
            procedure,
            line,
        } => {
            let values = [
                number as u64,
                state as u64,
                class as u64,
                line as u64,
                text.start as u64,
                text.len as u64,
                server.start as u64,
                server.len as u64,
                procedure.start as u64,
                procedure.len as u64,
            ];
            let at = tell_kind(kind, out, at);
            told::numbers(out, at, &values)
        },
    }
}

// AA for an error, AB for an info.
fn tell_kind(kind: u8, out: &mut [u8], at: usize) -> usize {
    if kind == 0xAA {
        told::word(out, at, b"AA")
    } else {
        told::word(out, at, b"AB")
    }
}

// num N, part START LENGTH, max START LENGTH of a Max part, or null
pub(crate) fn tell_cell(value: Value, out: &mut [u8], at: usize) -> usize {
    match value {
        Value::Number(n) => {
            let at = told::word(out, at, b"num");
            told::number(out, at, n)
        },
        Value::Part(held) => {
            told::words(out, at, b"part", &[held.start as u64, held.len as u64])
        },
        Value::Max(held) => { told::words(out, at, b"max", &[held.start as u64, held.len as u64]) },
        Value::Null => told::word(out, at, b"null"),
    }
}
