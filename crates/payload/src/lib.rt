// Numbers and parts of a payload, read at a place: each with the place after it, or the refusal of reading on where the payload
// ends within it. A field that its frame holds whole is read there; only one that does not has the headers after it tested.
#![tactic(auto)]

pub mod frames;
pub mod joining;

ghost use Rattle.std.specs.Prelude.{◌≡◌, ℕ, ◌&&◌, ◌+◌, ◌-◌, ◌*◌, ◌≤◌, ◌<◌, ◌^◌, leb, length, drop};
ghost use Rattle.wire.specs.Le.{le_at};
ghost use Rattle.refusals.specs.Refused.{numbered};
ghost use Rattle.payload.specs.Places.{whole, number_at, part_at};
ghost use Rattle.payload.specs.Frames.{lies, source_from};
ghost use Rattle.payload.specs.Answers.{number_read, part_read, Below};

use frames::{Frame, ends_within, lies, reach, walk};
use refusals::Refusal;
use wire::Part;

// A number, with the place after it.
#[derive(Clone, Copy)]
pub struct NumberAt {
    pub value: u64,
    pub next: usize,
}

// A part, with the place after it.
#[derive(Clone, Copy)]
pub struct PartAt {
    pub part: Part,
    pub next: usize,
}

// The number at a place, of one byte, of two, four or eight, the lowest first.
pub fn u8_at(lent: &[u8], frame: Frame, at: usize) -> Result<NumberAt, Refusal>
    ensures { (numbered result ≡ number_read (number_at 1 (source_from lent.now frame) at whole)) × Below 1 result }
{
    number_at(lent, frame, at, 1, |i| byte_at(lent, i))
}

pub fn u16_at(lent: &[u8], frame: Frame, at: usize) -> Result<NumberAt, Refusal>
    ensures { (numbered result ≡ number_read (number_at 2 (source_from lent.now frame) at whole)) × Below 2 result }
{
    number_at(lent, frame, at, 2, |i| wire::get_u16_le(lent, i) as u64)
}

pub fn u32_at(lent: &[u8], frame: Frame, at: usize) -> Result<NumberAt, Refusal>
    ensures { (numbered result ≡ number_read (number_at 4 (source_from lent.now frame) at whole)) × Below 4 result }
{
    number_at(lent, frame, at, 4, |i| wire::get_u32_le(lent, i) as u64)
}

pub fn u64_at(lent: &[u8], frame: Frame, at: usize) -> Result<NumberAt, Refusal>
    ensures { (numbered result ≡ number_read (number_at 8 (source_from lent.now frame) at whole)) × Below 8 result }
{
    number_at(lent, frame, at, 8, |i| wire::get_u64_le(lent, i))
}

// The number of k bytes at a place; where its frame holds it whole, `get` reads it at an index of the lent bytes.
fn number_at<F: FnOnce(usize) -> u64>(
    lent: &[u8],
    frame: Frame,
    at: usize,
    k: usize,
    get: F,
) -> Result<NumberAt, Refusal>
    requires size { (1 ≤ k) × (k ≤ 8) }
    requires gets { (i : ℕ) → i + k ≤ length lent.now → F.pre get i }
    requires got { (i n : ℕ) → i + k ≤ length lent.now → F.post get i n → (n ≡ le_at k (drop i lent.now)) × (n < 256 ^ k) }
    ensures { (numbered result ≡ number_read (number_at k (source_from lent.now frame) at whole)) × Below k result }
{
    if !holds(lent, frame, at, k) {
        return number_across(lent, frame, at, k);
    }
    Ok(NumberAt {
        value: get(at + 8 * frame.number),
        next: at + k,
    })
}

// A byte that is lent. A number of wire is read past the end too: that test is left out here.
fn byte_at(lent: &[u8], i: usize) -> u64
    requires { i < length lent.now }
    ensures { (result ≡ le_at 1 (drop i lent.now)) × (result < 256) }
{
    lent[i] as u64
}

// Whether a frame that the lent bytes have holds n bytes from a place on.
fn holds(lent: &[u8], frame: Frame, at: usize, n: usize) -> bool
    ensures { result ≡ (lies lent.now frame && leb (at + n) frame.end) }
{
    if !lies(lent, frame) {
        return false;
    }
    ends_within(frame, at, n)
}

// A number of k bytes that its frame does not hold whole: each byte's packet is found from that of the byte before it.
fn number_across(lent: &[u8], frame: Frame, at: usize, k: usize) -> Result<NumberAt, Refusal>
    requires { (1 ≤ k) × (k ≤ 8) }
    ensures { (numbered result ≡ number_read (number_at k (source_from lent.now frame) at whole)) × Below k result }
{
    if !lies(lent, frame) {
        return Err(Refusal::Cut);
    }
    let mut here = frame;
    let mut value: u64 = 0;
    for i in 0..k {
        here = walk(lent, here, at + i, 1)?;
        value += worth(lent[at + i + 8 * here.number], i);
    }
    Ok(NumberAt {
        value,
        next: at + k,
    })
}

// What a byte is worth in a number, where i bytes are below it.
fn worth(b: u8, i: usize) -> u64
    requires { i < 8 }
    ensures { (result ≡ b * 256 ^ i) × (b < 256) }
{
    (b as u64) << (8 * i)
}

// The part of n bytes at a place.
pub fn part_at(lent: &[u8], frame: Frame, at: usize, n: usize) -> Result<PartAt, Refusal>
    ensures { numbered result ≡ part_read (part_at n (source_from lent.now frame) at whole) }
{
    if !holds(lent, frame, at, n) {
        reach(lent, frame, at, n)?;
    }
    Ok(PartAt {
        part: Part { start: at, len: n },
        next: at + n,
    })
}
