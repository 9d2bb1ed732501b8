// What a call answered, as the list writes it: words with a space between them, to a lent buffer from a place on.
// Each function answers the place after its word.
use itoa::{Buffer, Integer};
use refusals::Refusal;

// A word as it is.
pub(crate) fn word(out: &mut [u8], at: usize, bytes: &[u8]) -> usize {
    let at = space(out, at);
    wire::put_slice(out, at, bytes)
}

// A space, but for the first word.
fn space(out: &mut [u8], at: usize) -> usize {
    if at == 0 {
        return 0;
    }
    wire::put_u8(out, at, b' ')
}

// A number in decimal.
pub(crate) fn number<I: Integer>(out: &mut [u8], at: usize, n: I) -> usize {
    let mut digits = Buffer::new();
    word(out, at, digits.format(n).as_bytes())
}

pub(crate) fn numbers(out: &mut [u8], from: usize, values: &[u64]) -> usize {
    let mut at = from;
    for value in values {
        at = number(out, at, *value);
    }
    at
}

// A word and numbers.
pub(crate) fn words(out: &mut [u8], at: usize, name: &[u8], values: &[u64]) -> usize {
    let at = word(out, at, name);
    numbers(out, at, values)
}

// A refusal by its number.
pub(crate) fn refused(out: &mut [u8], at: usize, refusal: Refusal) -> usize {
    words(out, at, b"refused", &[refusal.number() as u64])
}

// The value of a test: 1 or 0.
pub(crate) fn flag(test: bool) -> u64 {
    u64::from(test)
}
