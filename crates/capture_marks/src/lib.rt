// Stored captures of requests (document 02, 2026-05): which of their records have a headers length that cannot be. Any bytes
// are answered; a refusal is its number in document 01.
#![tactic(auto)]

ghost use Rattle.std.specs.Prelude.{◌≡◌, ◌≤◌, ◌+◌, length};
ghost use Rattle.refusals.specs.Refused.{numbered};
ghost use Rattle.wire.specs.Over.{overwrite};
ghost use Rattle.capture_marks.specs.Marks.{is_marked, mark_of, marks_of, counted_of, marks_in, slots_after};

use refusals::Refusal;
use request::HeadersFault;
use script::Found;

// The kind of a capture's records: each is the body of one request.
pub const REQUEST_BODY: u16 = 0x0021;

// How many records are marked. Their numbers stand in the first of the lent slots, rising; records are numbered from 0. A refusal
// leaves the slots.
pub fn marks(capture: &[u8], out: &mut [u64]) -> Result<usize, Refusal>
    ensures value { numbered result ≡ marks_in capture.now (length out.old) }
    ensures out_after { out.new ≡ slots_after capture.now out.old }
{
    let count = count_marks(capture)?;
    if out.len() < count {
        return Err(Refusal::BufferTooShort);
    }
    put_marks(capture, out, count);
    Ok(count)
}

// Whether the headers length of a body cannot be.
#[tactic(auto, unfolding(crate::specs::Marks::is_marked))]
fn is_marked(body: &[u8]) -> bool
    ensures { result ≡ is_marked body.now }
{
    request::all_headers(body) == Err(HeadersFault::TooSmall)
}

// How many records are marked, or the capture's refusal: one pass, before anything is written.
fn count_marks(capture: &[u8]) -> Result<usize, Refusal>
    ensures { numbered result ≡ counted_of capture.now }
{
    let mut at: usize = 0;
    let mut count: usize = 0;
    loop {
        match script::record_at(capture, at) {
            Found::Cut => return Err(Refusal::RecordCut),
            Found::End => return Ok(count),
            Found::Record { kind, start, len } => {
                if kind != REQUEST_BODY {
                    return Err(Refusal::KindWrong);
                }
                at = start + len;
                if is_marked(&capture[start..at]) {
                    count += 1;
                }
            }
        }
    }
}

// The numbers of the marked records, of which there are so many, from the front of the slots. Records after the last of
// them are not looked at again.
fn put_marks(capture: &[u8], out: &mut [u64], marked: usize)
    requires marked_value { marked ≡ length (marks_of capture.now) }
    requires marked_in_bounds { marked ≤ length out.old }
    ensures { out.new ≡ overwrite out.old 0 (marks_of capture.now) }
{
    let mut at: usize = 0;
    let mut number: u64 = 0;
    let mut count: usize = 0;
    while count < marked {
        let Found::Record { start, len, .. } = script::record_at(capture, at) else {
            return;
        };
        at = start + len;
        count = put_mark(&capture[start..at], number, out, count);
        number += 1;
    }
}

// The number of a record at a place of the slots, where it is marked; the place after it.
#[tactic(auto, unfolding(wire::specs::Over::overwrite))]
fn put_mark(body: &[u8], number: u64, out: &mut [u64], at: usize) -> usize
    requires { at + length (mark_of number body.now) ≤ length out.old }
    ensures value { result ≡ at + length (mark_of number body.now) }
    ensures out_after { out.new ≡ overwrite out.old at (mark_of number body.now) }
{
    if !is_marked(body) {
        return at;
    }
    out[at] = number;
    at + 1
}
