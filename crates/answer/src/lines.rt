// Text that goes to a writer: each function puts its part after what stands there. The writer gathers it (gathering.rt).
use itoa::{Buffer, Integer};
use refusals::Refusal;
use std::io;
use std::io::Write;
use wire::Part;

// Bytes as they are.
pub(crate) fn text(out: &mut impl Write, bytes: &[u8]) -> io::Result<()> {
    out.write_all(bytes)
}

// A number in decimal, after a space.
pub(crate) fn number<I: Integer>(out: &mut impl Write, n: I) -> io::Result<()> {
    text(out, b" ")?;
    decimal(out, n)
}

// A number in decimal.
pub(crate) fn decimal<I: Integer>(out: &mut impl Write, n: I) -> io::Result<()> {
    let mut digits = Buffer::new();
    text(out, digits.format(n).as_bytes())
}

// Numbers, each after a space.
pub(crate) fn numbers(out: &mut impl Write, values: &[u64]) -> io::Result<()> {
    for value in values {
        number(out, *value)?;
    }
    Ok(())
}

// A word, and a part's start and length.
pub(crate) fn part(out: &mut impl Write, word: &[u8], place: Part) -> io::Result<()> {
    text(out, word)?;
    numbers(out, &[place.start as u64, place.len as u64])
}

// Bytes in upper-case hexadecimal, after a space; `-` where there are none.
pub(crate) fn bytes(out: &mut impl Write, s: &[u8]) -> io::Result<()> {
    if s.len() == 0 {
        return text(out, b" -");
    }
    text(out, b" ")?;
    digits(out, s)
}

// A number of two bytes as four digits, after a space.
pub(crate) fn word(out: &mut impl Write, n: u16) -> io::Result<()> {
    bytes(out, &[(n / 256) as u8, (n % 256) as u8])
}

// Bytes in upper-case hexadecimal: eight at a time, the rest digit by digit (a `write!` for each byte takes up to twice as long).
pub(crate) fn digits(out: &mut impl Write, s: &[u8]) -> io::Result<()> {
    let (eights, rest) = s.as_chunks();
    for eight in eights {
        write!(out, "{:016X}", u64::from_be_bytes(*eight))?;
    }
    for byte in rest {
        text(out, &[digit(byte / 16), digit(byte % 16)])?;
    }
    Ok(())
}

// The digit of a number under 16.
fn digit(n: u8) -> u8 {
    if n < 10 { b'0' + n } else { b'A' - 10 + n % 16 }
}

// A word and 1 or 0.
pub(crate) fn flag(out: &mut impl Write, word: &[u8], set: bool) -> io::Result<()> {
    text(out, word)?;
    text(out, &[b'0' + u8::from(set)])
}

// A line of a word and a number.
pub(crate) fn number_line(out: &mut impl Write, word: &[u8], n: u64) -> io::Result<()> {
    text(out, word)?;
    number(out, n)?;
    end(out)
}

// A line of a word and bytes.
pub(crate) fn bytes_line(out: &mut impl Write, word: &[u8], s: &[u8]) -> io::Result<()> {
    text(out, word)?;
    bytes(out, s)?;
    end(out)
}

// A line of a word and a part.
pub(crate) fn part_line(out: &mut impl Write, word: &[u8], place: Part) -> io::Result<()> {
    part(out, word, place)?;
    end(out)
}

// A word, and a part of some bytes with what stands in it.
pub(crate) fn held(
    out: &mut impl Write,
    word: &[u8],
    source: &[u8],
    place: Part,
) -> io::Result<()> {
    part(out, word, place)?;
    bytes(out, wire::part_of(source, place))
}

// A line of these.
pub(crate) fn held_line(
    out: &mut impl Write,
    word: &[u8],
    source: &[u8],
    place: Part,
) -> io::Result<()> {
    held(out, word, source, place)?;
    end(out)
}

// The line of a refusal.
pub(crate) fn refused(out: &mut impl Write, refusal: Refusal) -> io::Result<()> {
    number_line(out, b"refused", refusal.number() as u64)
}

// The end of a line.
pub(crate) fn end(out: &mut impl Write) -> io::Result<()> {
    text(out, b"\n")
}
