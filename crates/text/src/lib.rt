// UTF-16LE text: units, surrogates, lengths, white space and trimming.
// A text is any bytes: two are a unit, the lower first, and an odd last byte belongs to none.
#![tactic(auto)]

ghost use Rattle.std.specs.Prelude.{ℕ, ◌≡◌, ◌*◌, ◌/◌, ◌≤◌, ◌<◌, length, map};
ghost use Rattle.refusals.specs.Refused.{refused_by};
ghost use Rattle.wire.specs.Le.{le_at};
ghost use Rattle.text.specs.Units.{units_of, units, total};
ghost use Rattle.text.specs.Surrogates.{surrogate_of, well_formed, has_pair, characters_in, characters, utf8_in, utf8_length};
ghost use Rattle.text.specs.Space.{is_whitespace};
ghost use Rattle.text.specs.Trim.{leading, kept, trimmed};
ghost use Rattle.text.specs.Arguments.{text_fault};

use refusals::Refusal;
use wire::Part;

// What a unit is: half of a surrogate pair, the high one or the low one, or a character of its own.
#[derive(Clone, Copy)]
pub enum Surrogate {
    Plain,
    High,
    Low,
}

pub fn surrogate_of(u: u16) -> Surrogate
    ensures { result ≡ surrogate_of u }
{
    match u {
        0xd800..=0xdbff => Surrogate::High,
        0xdc00..=0xdfff => Surrogate::Low,
        _ => Surrogate::Plain,
    }
}

// The units of a text, each as its two bytes.
fn pairs(s: &[u8]) -> &[[u8; 2]]
    ensures value { map (le_at 2) result.now ≡ units_of s.now }
    ensures len { length result.now ≡ length s.now / 2 }
{
    s.as_chunks().0
}

// The unit that two bytes are, the lower first.
fn unit(pair: &[u8; 2]) -> u16
    ensures { result ≡ le_at 2 pair.now }
{
    u16::from_le_bytes(*pair)
}

// Whether a text is UTF-16: an even number of bytes, and surrogates in pairs.
pub fn is_well_formed(s: &[u8]) -> bool
    ensures { result ≡ well_formed s.now }
{
    if s.len() % 2 != 0 {
        return false;
    }
    let mut high = false;
    let units = pairs(s);
    for pair in units {
        match surrogate_of(unit(pair)) {
            Surrogate::Plain => {
                if high {
                    return false;
                }
            }
            Surrogate::High => {
                if high {
                    return false;
                }
                high = true;
            }
            Surrogate::Low => {
                if !high {
                    return false;
                }
                high = false;
            }
        }
    }
    !high
}

// Whether a high surrogate stands in a text.
pub fn has_pair(s: &[u8]) -> bool
    ensures { result ≡ has_pair s.now }
{
    let units = pairs(s);
    for pair in units {
        match surrogate_of(unit(pair)) {
            Surrogate::High => return true,
            Surrogate::Plain | Surrogate::Low => {}
        }
    }
    false
}

pub fn units(s: &[u8]) -> usize
    ensures { result ≡ units s.now }
{
    s.len() / 2
}

// How many characters a text has: every unit counts but the low surrogates.
pub fn characters(s: &[u8]) -> usize
    ensures { result ≡ characters s.now }
{
    total(s, |u| characters_in(u))
}

// How many bytes a text has as UTF-8.
pub fn utf8_length(s: &[u8]) -> usize
    ensures { result ≡ utf8_length s.now }
{
    total(s, |u| utf8_in(u))
}

// The sum of what each unit of a text counts, at most 3.
fn total<F: Fn(u16) -> usize>(s: &[u8], count: F) -> usize
    ghost counted: { ℕ → ℕ }
    requires callable { F.IsAlwaysCallable count }
    requires counts { (u n : ℕ) → u < 65536 → F.post count u n → (n ≡ counted u) × (n ≤ 3) }
    ensures { result ≡ total counted (units_of s.now) }
{
    let mut n: usize = 0;
    let units = pairs(s);
    for pair in units {
        n += count(unit(pair));
    }
    n
}

fn characters_in(u: u16) -> usize
    ensures { (result ≡ characters_in u) × (result ≤ 3) }
{
    match u {
        0xdc00..=0xdfff => 0,
        _ => 1,
    }
}

fn utf8_in(u: u16) -> usize
    ensures { (result ≡ utf8_in u) × (result ≤ 3) }
{
    match u {
        0x0000..=0x007f => 1,
        0x0080..=0x07ff | 0xd800..=0xdfff => 2,
        _ => 3,
    }
}

// Whether trimming removes a unit.
pub fn is_whitespace(u: u16) -> bool
    ensures { result ≡ is_whitespace u }
{
    match u {
        0x0009..=0x000d
        | 0x0020
        | 0x0085
        | 0x00a0
        | 0x1680
        | 0x2000..=0x200a
        | 0x2028
        | 0x2029
        | 0x202f
        | 0x205f
        | 0x3000 => true,
        _ => false,
    }
}

// A text without white space at its ends, as a part of it: one pass from each end.
pub fn trimmed(s: &[u8]) -> Part
    ensures { result ≡ trimmed s.now }
{
    let start = trim_start(s);
    let len = trim_end(&s[start..]);
    Part { start, len }
}

// Where a text begins without the white space at its start.
fn trim_start(s: &[u8]) -> usize
    ensures { (result ≡ 2 * leading (units_of s.now)) × (result ≤ length s.now) }
{
    let units = pairs(s);
    let blank = units.iter().position(|pair| !is_whitespace(unit(pair)));
    2 * blank.unwrap_or(units.len())
}

// Where a text ends without the white space at its end.
fn trim_end(s: &[u8]) -> usize
    ensures { result ≡ 2 * kept (units_of s.now) }
{
    let mut units = pairs(s);
    while let Some((pair, before)) = units.split_last() {
        if !is_whitespace(unit(pair)) {
            return 2 * units.len();
        }
        units = before;
    }
    0
}

// Why a text argument is refused, if it is.
pub fn text_fault(text: &[u8]) -> Result<(), Refusal>
    ensures { refused_by result ≡ text_fault text.now }
{
    if text.len() % 2 != 0 {
        return Err(Refusal::OddText);
    }
    if !is_well_formed(text) {
        return Err(Refusal::NotUtf16);
    }
    Ok(())
}
