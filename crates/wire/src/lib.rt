// Numbers and bytes on the wire: read from a slice and written to a lent buffer, at any place.
// A byte past the end reads as 0 and is not written, so no call asks anything of its caller.
#![tactic(auto)]

mod writer;

ghost use Rattle.std.specs.Prelude.{◌≡◌, [], ◌∷◌, ◌-◌, ◌<◌, length, drop};
ghost use Rattle.wire.specs.Le.{le_at, le};
ghost use Rattle.wire.specs.Be.{first, be_at, be};
ghost use Rattle.wire.specs.Over.{overwrite, PlaceAfter};
ghost use Rattle.wire.specs.Part.{part_bytes};

pub use writer::Writer;

// A part of some bytes (document 01's term): where it starts in them, and how many there are.
#[derive(Clone, Copy)]
pub struct Part {
    pub start: usize,
    pub len: usize,
}

// The part of s, as a slice; what lies past the end of s is left out.
pub fn part_of(s: &[u8], part: Part) -> &[u8]
    ensures { result.now ≡ part_bytes s.now part }
{
    let start = part.start;
    let len = part.len;
    let rest = left(s, start);
    if rest == 0 {
        return &s[..0];
    }
    if rest < len {
        return &s[start..];
    }
    let end = start + len;
    &s[start..end]
}

// How many bytes stand from a place on.
pub fn left(s: &[u8], at: usize) -> usize
    ensures { result ≡ length s.now - at }
{
    s.len().saturating_sub(at)
}

// The number that bytes are, the lowest first.
pub fn u16_from_le_bytes(b0: u8, b1: u8) -> u16
    ensures { result ≡ le_at 2 (b0 ∷ b1 ∷ []) }
{
    u16::from_le_bytes([b0, b1])
}

pub fn u32_from_le_bytes(b0: u8, b1: u8, b2: u8, b3: u8) -> u32
    ensures { result ≡ le_at 4 (b0 ∷ b1 ∷ b2 ∷ b3 ∷ []) }
{
    u32::from_le_bytes([b0, b1, b2, b3])
}

// The bytes at a place; one past the end is 0. Where some are, each is read by itself: a copy of the others would be a call of `memcpy`.
fn bytes_at<const N: usize>(s: &[u8], at: usize) -> [u8; N]
    ensures { result ≡ first N (drop at s.now) }
{
    let rest = &s[at.min(s.len())..];
    match rest.first_chunk() {
        Some(bytes) => *bytes,
        None => {
            let mut bytes = [0; N];
            for i in 0..N {
                bytes[i] = get_u8(rest, i);
            }
            bytes
        }
    }
}

pub fn get_u8(s: &[u8], at: usize) -> u8
    ensures { result ≡ le_at 1 (drop at s.now) }
{
    s.get(at).copied().unwrap_or(0)
}

pub fn get_u16_le(s: &[u8], at: usize) -> u16
    ensures { result ≡ le_at 2 (drop at s.now) }
{
    u16::from_le_bytes(bytes_at(s, at))
}

pub fn get_u32_le(s: &[u8], at: usize) -> u32
    ensures { result ≡ le_at 4 (drop at s.now) }
{
    u32::from_le_bytes(bytes_at(s, at))
}

pub fn get_u64_le(s: &[u8], at: usize) -> u64
    ensures { result ≡ le_at 8 (drop at s.now) }
{
    let bytes: [u8; 8] = bytes_at(s, at);
    u64::from_le_bytes(bytes)
}

// A big-endian number: the highest byte first.
pub fn get_u16(s: &[u8], at: usize) -> u16
    ensures { result ≡ be_at 2 (drop at s.now) }
{
    u16::from_be_bytes(bytes_at(s, at))
}

// Writers answer the place after what they wrote.
pub fn put_u8(buf: &mut [u8], at: usize, v: u8) -> usize
    ensures buf_after { buf.new ≡ overwrite buf.old at (le 1 v) }
    ensures place_after { PlaceAfter buf.old at (le 1 v) result }
{
    if buf.len() <= at {
        return buf.len();
    }
    buf[at] = v;
    at + 1
}

pub fn put_u16_le(buf: &mut [u8], at: usize, v: u16) -> usize
    ensures buf_after { buf.new ≡ overwrite buf.old at (le 2 v) }
    ensures place_after { PlaceAfter buf.old at (le 2 v) result }
{
    put_bytes(buf, at, v.to_le_bytes())
}

pub fn put_u32_le(buf: &mut [u8], at: usize, v: u32) -> usize
    ensures buf_after { buf.new ≡ overwrite buf.old at (le 4 v) }
    ensures place_after { PlaceAfter buf.old at (le 4 v) result }
{
    put_bytes(buf, at, v.to_le_bytes())
}

pub fn put_u64_le(buf: &mut [u8], at: usize, v: u64) -> usize
    ensures buf_after { buf.new ≡ overwrite buf.old at (le 8 v) }
    ensures place_after { PlaceAfter buf.old at (le 8 v) result }
{
    put_bytes(buf, at, v.to_le_bytes())
}

// A big-endian number: the highest byte first.
pub fn put_u16(buf: &mut [u8], at: usize, v: u16) -> usize
    ensures buf_after { buf.new ≡ overwrite buf.old at (be 2 v) }
    ensures place_after { PlaceAfter buf.old at (be 2 v) result }
{
    put_bytes(buf, at, v.to_be_bytes())
}

// The bytes of a number; with room for all of them their count is a constant, which is one store, and else each is put by itself.
fn put_bytes<const N: usize>(buf: &mut [u8], at: usize, bytes: [u8; N]) -> usize
    requires { 0 < N }
    ensures buf_after { buf.new ≡ overwrite buf.old at bytes.entry }
    ensures place_after { PlaceAfter buf.old at bytes.entry result }
{
    if left(buf, at) < N {
        let mut next = at.min(buf.len());
        for i in 0..N {
            next = put_u8(buf, next, bytes[i]);
        }
        return next;
    }
    let end = at + N;
    buf[at..end].copy_from_slice(&bytes);
    end
}

// The bytes of src, copied: what lies past the end of buf is left out. A loop, since `copy_from_slice` of a length that is no constant
// is a call of `memmove`, which whoever links the library would have to bring.
pub fn put_slice(buf: &mut [u8], at: usize, src: &[u8]) -> usize
    ensures buf_after { buf.new ≡ overwrite buf.old at src.now }
    ensures place_after { PlaceAfter buf.old at src.now result }
{
    let n = src.len().min(left(buf, at));
    if n == 0 {
        return at.min(buf.len());
    }
    for (i, byte) in src[..n].iter().enumerate() {
        buf[at + i] = *byte;
    }
    at + n
}
