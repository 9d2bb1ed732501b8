// The words of a line, and what they stand for. A word ends at a space, and the words of an answer follow `=`.
// Bytes are digits in pairs; `DIGITS*COUNT` stands for the digits so many times, and `,` joins such runs. `-` is none.

// The bytes before the first mark.
pub(crate) fn before(s: &[u8], mark: u8) -> &[u8] {
    match s.iter().position(|byte| *byte == mark) {
        Some(at) => &s[..at],
        None => s,
    }
}

// The bytes after the first mark.
fn after(s: &[u8], mark: u8) -> &[u8] {
    match s.iter().position(|byte| *byte == mark) {
        Some(at) => &s[at + 1..],
        None => &[],
    }
}

// A word of a line by its number; the first, which is the function's name, is 0.
pub(crate) fn word(line: &[u8], number: usize) -> &[u8] {
    match line.split(|byte| *byte == b' ').nth(number) {
        Some(found) => found,
        None => &[],
    }
}

// The answer that a line holds: what follows `= `.
pub(crate) fn answer(line: &[u8]) -> &[u8] {
    after(after(line, b'='), b' ')
}

// The number of decimal digits, modulo 2^64.
pub(crate) fn number(digits: &[u8]) -> u64 {
    digits.iter().fold(
        0u64,
        |n, byte| n.wrapping_mul(10).wrapping_add(u64::from(digit(*byte))),
    )
}

// The value of a digit, upper-case where it is a letter; 0 for what is none.
fn digit(byte: u8) -> u8 {
    match byte {
        b'0'..=b'9' => byte - b'0',
        b'A'..=b'F' => byte - b'A' + 10,
        _ => 0,
    }
}

// Numbers of a line, each a word by its number.
pub(crate) fn u64_at(line: &[u8], place: usize) -> u64 {
    number(word(line, place))
}

pub(crate) fn u32_at(line: &[u8], place: usize) -> u32 {
    (u64_at(line, place) % 4294967296) as u32
}

pub(crate) fn u16_at(line: &[u8], place: usize) -> u16 {
    (u64_at(line, place) % 65536) as u16
}

pub(crate) fn u8_at(line: &[u8], place: usize) -> u8 {
    (u64_at(line, place) % 256) as u8
}

pub(crate) fn bool_at(line: &[u8], place: usize) -> bool {
    u64_at(line, place) != 0
}

// The bytes of a word, by its number, to the front of a lent buffer; answers how many there are.
pub(crate) fn bytes_at(line: &[u8], place: usize, space: &mut [u8]) -> usize {
    bytes(word(line, place), space)
}

pub(crate) fn bytes(runs: &[u8], space: &mut [u8]) -> usize {
    let mut at = 0;
    for run in runs.split(|byte| *byte == b',') {
        at = put_run(run, space, at);
    }
    at
}

fn put_run(run: &[u8], space: &mut [u8], at: usize) -> usize {
    let digits = before(run, b'*');
    if digits.len() == run.len() {
        return put_pairs(digits, space, at);
    }
    put_times(digits, number(before(after(run, b'*'), b'*')), space, at)
}

fn put_times(digits: &[u8], count: u64, space: &mut [u8], from: usize) -> usize {
    let mut at = from;
    for _ in 0..count {
        at = put_pairs(digits, space, at);
    }
    at
}

fn put_pairs(digits: &[u8], space: &mut [u8], from: usize) -> usize {
    let mut at = from;
    for pair in digits.chunks_exact(2) {
        at = wire::put_u8(space, at, byte(pair[0], pair[1]));
    }
    at
}

fn byte(high: u8, low: u8) -> u8 {
    digit(high) % 16 * 16 + digit(low) % 16
}
