// Event labels: `read_label LENT VALUE` and `write_label LENT TEXT`, so many bytes of a buffer are lent. The answer is `text`
// or `value` with the bytes written, and the rest of the buffer is kept; of `null` and of a refused call all of it.
use crate::{builds, calls, spaces, words};
use refusals::Refusal;

pub(crate) fn holds(line: &[u8], name: &[u8]) -> bool {
    let mut space = spaces::zeros();
    let n = words::bytes_at(line, 2, &mut space);
    let input = wire::part_of(&space, calls::first(n));
    if name == b"read_label".as_slice() {
        return is_read(line, input);
    }
    is_written(line, input)
}

fn is_read(line: &[u8], value: &[u8]) -> bool {
    let mut buf = spaces::patterned();
    let lent = words::u64_at(line, 1) as usize;
    match read_lent(value, &mut buf, lent) {
        Ok(Some(len)) => is_told(line, b"text", &buf, len),
        Ok(None) => is_null(line, &buf),
        Err(refusal) => builds::is_refused(line, &buf, refusal),
    }
}

fn read_lent(value: &[u8], buf: &mut [u8], lent: usize) -> Result<Option<usize>, Refusal> {
    if lent < buf.len() {
        return windows1252::read_value(value, &mut buf[..lent]);
    }
    windows1252::read_value(value, buf)
}

fn is_null(line: &[u8], buf: &[u8]) -> bool {
    if !calls::is_kept(buf, 0) {
        return false;
    }
    words::answer(line) == b"null".as_slice()
}

fn is_written(line: &[u8], text: &[u8]) -> bool {
    let mut buf = spaces::patterned();
    let lent = words::u64_at(line, 1) as usize;
    match write_lent(text, &mut buf, lent) {
        Ok(len) => is_told(line, b"value", &buf, len),
        Err(refusal) => builds::is_refused(line, &buf, refusal),
    }
}

fn write_lent(text: &[u8], buf: &mut [u8], lent: usize) -> Result<usize, Refusal> {
    if lent < buf.len() {
        return windows1252::write_value(text, &mut buf[..lent]);
    }
    windows1252::write_value(text, buf)
}

// Whether the line holds a word and the bytes before a place of the buffer, and those from it on are kept.
fn is_told(line: &[u8], word: &[u8], buf: &[u8], len: usize) -> bool {
    if !calls::is_kept(buf, len) {
        return false;
    }
    let told = words::answer(line);
    if words::word(told, 0) != word {
        return false;
    }
    calls::same_word(words::word(told, 1), wire::part_of(buf, calls::first(len)))
}
