// Event labels (document 02, 2026-07): VARCHAR(MAX) values in Windows-1252, a total and chunks, read to UTF-16LE, and such
// text written as a value. Any bytes are answered; a refusal leaves the lent buffer.
#![tactic(auto)]

mod characters;

ghost use Rattle.std.specs.Prelude.{◌≡◌, true, ◌+◌, ◌*◌, ◌≤◌, ◌<◌, length};
ghost use Rattle.wire.specs.Over.{overwrite, PlaceAfter};
ghost use Rattle.wire.specs.Le.{le_at};
ghost use Rattle.wire.specs.Fields.{flat};
ghost use Rattle.refusals.specs.Refused.{numbered, refused_by};
ghost use Rattle.text.specs.Units.{units_of};
ghost use Rattle.windows1252.specs.Table.{table, have_bytes, bytes_of, text_of};
ghost use Rattle.windows1252.specs.Labels.{chunks_joined, read_of, value_bytes, written_of};
ghost use Rattle.windows1252.specs.Answers.{size_of, read_in, text_left, written_in, value_left};
ghost use Rattle.windows1252.specs.Code.{null_at, text_at, fault_by, value_size, chunk_fields};

use cells::{NULL_TOTAL, UNKNOWN_TOTAL, chunks_at};
use characters::{TABLE, byte_of, has_byte, unit_of};
use payload::frames::body;
use payload::u64_at;
use refusals::Refusal;
use wire::Part;

// The most characters of a label.
const MOST_CHARACTERS: usize = 65535;

// The bytes of a total, which chunks follow.
const TOTAL_SIZE: usize = 8;

// ---- reading

// A value's text as UTF-16LE at the buffer's front, and how many bytes it has; none where the value is null. 24, 26, 17, then 20.
pub fn read_value(value: &[u8], buf: &mut [u8]) -> Result<Option<usize>, Refusal>
    ensures value { numbered result ≡ read_in value.now (length buf.old) }
    ensures buf_after { buf.new ≡ text_left value.now buf.old }
{
    let Some(size) = measured(value)? else {
        return Ok(None);
    };
    if buf.len() < size {
        return Err(Refusal::BufferTooShort);
    }
    put_text(value, buf);
    Ok(Some(size))
}

// What reading answers where there is room: one walk over the chunks' lengths, before anything is written.
fn measured(value: &[u8]) -> Result<Option<usize>, Refusal>
    ensures { numbered result ≡ size_of (read_of value.now) }
{
    let frame = body(value);
    let total = u64_at(value, frame, 0)?;
    if total.value == NULL_TOTAL {
        return null_at(value, total.next);
    }
    let known = total.value != UNKNOWN_TOTAL;
    let chunks = chunks_at(value, frame, total.next, false, known, total.value as usize)?;
    text_at(value, chunks.next, chunks.count)
}

// Null, where nothing follows it.
fn null_at(value: &[u8], next: usize) -> Result<Option<usize>, Refusal>
    ensures { numbered result ≡ null_at (length value.now) next }
{
    if next != value.len() {
        return Err(Refusal::InnerWrong);
    }
    Ok(None)
}

// A text of so many characters, where nothing follows its chunks.
fn text_at(value: &[u8], next: usize, count: usize) -> Result<Option<usize>, Refusal>
    ensures { numbered result ≡ text_at (length value.now) next count }
{
    if next != value.len() {
        return Err(Refusal::InnerWrong);
    }
    if MOST_CHARACTERS < count {
        return Err(Refusal::ResultTooLong);
    }
    Ok(Some(2 * count))
}

// The text of a value's chunks at the buffer's front.
fn put_text(value: &[u8], buf: &mut [u8])
    requires { 2 * length (chunks_joined value.now) ≤ length buf.old }
    ensures { buf.new ≡ overwrite buf.old 0 (text_of (chunks_joined value.now)) }
{
    let units = TABLE;
    let mut at = TOTAL_SIZE;
    let mut to = 0;
    while at < value.len() {
        let len = wire::get_u32_le(value, at) as usize;
        if len == 0 {
            return;
        }
        let chunk = wire::part_of(value, Part { start: at + 4, len });
        to = put_characters(&units, chunk, buf, to);
        at = at + 4 + len;
    }
}

// The characters of some bytes at a place of the buffer; the place after them.
fn put_characters(units: &[u16], bytes: &[u8], buf: &mut [u8], at: usize) -> usize
    requires units_value { units.now ≡ table }
    requires bytes_in_bounds { at + 2 * length bytes.now ≤ length buf.old }
    ensures value { result ≡ at + 2 * length bytes.now }
    ensures buf_after { buf.new ≡ overwrite buf.old at (text_of bytes.now) }
{
    let mut to = at;
    for byte in bytes {
        let [low, high] = unit_of(units, *byte).to_le_bytes();
        buf[to] = low;
        buf[to + 1] = high;
        to += 2;
    }
    to
}

// ---- writing

// A text of UTF-16LE as a value at the buffer's front, of known total and one chunk, or none where it is empty: 21, 36, 17, then 20.
pub fn write_value(text: &[u8], buf: &mut [u8]) -> Result<usize, Refusal>
    ensures value { numbered result ≡ written_in text.now (length buf.old) }
    ensures buf_after { buf.new ≡ value_left text.now buf.old }
{
    fault_of(text)?;
    let size = value_size(text.len() / 2);
    if buf.len() < size {
        return Err(Refusal::BufferTooShort);
    }
    put_value(text, buf);
    Ok(size)
}

// Whether a text is refused.
fn fault_of(text: &[u8]) -> Result<(), Refusal>
    ensures { refused_by result ≡ fault_by (written_of text.now) }
{
    if text.len() % 2 != 0 {
        return Err(Refusal::OddText);
    }
    if !have_bytes(text) {
        return Err(Refusal::UnitWithoutByte);
    }
    if MOST_CHARACTERS < text.len() / 2 {
        return Err(Refusal::ResultTooLong);
    }
    Ok(())
}

// Whether each unit of a text has a byte.
fn have_bytes(text: &[u8]) -> bool
    ensures { result ≡ have_bytes (units_of text.now) }
{
    let units = TABLE;
    let (pairs, _) = text.as_chunks::<2>();
    pairs.iter().all(|pair| has_byte(&units, unit_in(pair)))
}

// The bytes of a value of n characters.
fn value_size(n: usize) -> usize
    requires { n ≤ 65535 }
    ensures { result ≡ value_size n }
{
    if n == 0 { 12 } else { n + 16 }
}

// The value of a text at the buffer's front.
fn put_value(text: &[u8], buf: &mut [u8])
    requires text_value { fault_by (written_of text.now) ≡ 0 }
    requires text_in_bounds { value_size (length (units_of text.now)) ≤ length buf.old }
    ensures { buf.new ≡ overwrite buf.old 0 (value_bytes (bytes_of (units_of text.now))) }
{
    let first = wire::put_u64_le(buf, 0, (text.len() / 2) as u64);
    let end = put_chunk(text, buf, first);
    wire::put_u32_le(buf, end, 0);
}

// The one chunk of a text at a place of the buffer, none where it is empty; the place after it.
fn put_chunk(text: &[u8], buf: &mut [u8], at: usize) -> usize
    requires text_value { (have_bytes (units_of text.now) ≡ true) × (length (units_of text.now) ≤ 65535) }
    requires text_in_bounds { at + 4 + length (units_of text.now) ≤ length buf.old }
    ensures buf_after { buf.new ≡ overwrite buf.old at (flat (chunk_fields (bytes_of (units_of text.now)))) }
    ensures place_after { PlaceAfter buf.old at (flat (chunk_fields (bytes_of (units_of text.now)))) result }
{
    let n = text.len() / 2;
    if n == 0 {
        return at;
    }
    let first = wire::put_u32_le(buf, at, n as u32);
    put_bytes(text, buf, first)
}

// The bytes of a text at a place of the buffer; the place after them.
fn put_bytes(text: &[u8], buf: &mut [u8], at: usize) -> usize
    requires text_value { have_bytes (units_of text.now) ≡ true }
    requires text_in_bounds { at + length (units_of text.now) ≤ length buf.old }
    ensures buf_after { buf.new ≡ overwrite buf.old at (bytes_of (units_of text.now)) }
    ensures place_after { PlaceAfter buf.old at (bytes_of (units_of text.now)) result }
{
    let units = TABLE;
    let (pairs, _) = text.as_chunks::<2>();
    let mut to = at;
    for pair in pairs {
        buf[to] = byte_of(&units, unit_in(pair));
        to += 1;
    }
    to
}

// The unit that two bytes are.
fn unit_in(pair: &[u8; 2]) -> u16
    ensures { result ≡ le_at 2 pair.now }
{
    u16::from_le_bytes(*pair)
}
