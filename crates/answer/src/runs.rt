// Runs of a call over an input, which is that of the program. Their lines go to out.
ghost use Rattle.std.specs.Prelude.{◌≤◌, IfOk};

use crate::calls::Call;
use crate::{calls, lines};
use refusals::Refusal;
use std::io;
use std::io::{Read, Write};
use wire::Part;

// The most bytes of an input, and of one that is a reply in packets or a label.
const MOST: usize = 65536;

const MOST_LONG: usize = 131072;

// The bytes of the lent buffer: an input and the length of a next one.
pub(crate) const ROOM: usize = 131076;

// The most bytes of a call's input.
fn most(call: Call) -> usize {
    match call {
        Call::Tokens | Call::Places | Call::ReadLabel | Call::WriteLabel => MOST_LONG,
        _ => MOST,
    }
}

// One answer: all that can be read is the input.
pub(crate) fn once<R: Read, W: Write>(
    call: Call,
    from: &mut R,
    input: &mut [u8],
    out: &mut W,
) -> io::Result<()> {
    let n = read_up_to(from, input, input.len())?;
    if n <= most(call) {
        calls::answer(call, wire::part_of(input, Part { start: 0, len: n }), out)
    } else {
        lines::refused(out, Refusal::InputTooLong)
    }
}

// An answer and an empty line for each input. Nothing says that what is read ends, and a proved loop does: no run has so
// many turns. A run goes on while the length of a next input is there.
pub(crate) fn many<R: Read, W: Write>(
    call: Call,
    from: &mut R,
    input: &mut [u8],
    out: &mut W,
) -> io::Result<()> {
    let mut next = next_length(from, input)?;
    for _ in 0..u64::MAX {
        let Some(len) = next else {
            break;
        };
        next = turn(call, from, input, out, len)?;
    }
    Ok(())
}

// The length of the next input, if it is there whole.
fn next_length<R: Read>(from: &mut R, input: &mut [u8]) -> io::Result<Option<u32>> {
    let got = read_up_to(from, input, 4)?;
    Ok(length_at(input, 0, got == 4))
}

fn turn<R: Read, W: Write>(
    call: Call,
    from: &mut R,
    input: &mut [u8],
    out: &mut W,
    len: u32,
) -> io::Result<Option<u32>> {
    if len as usize <= most(call) {
        one(call, from, input, out, len)
    } else {
        over(from, input, out, len)
    }
}

// An input, which is read together with the length of the next one. One that is cut short ends the run.
fn one<R: Read, W: Write>(
    call: Call,
    from: &mut R,
    input: &mut [u8],
    out: &mut W,
    len: u32,
) -> io::Result<Option<u32>> {
    let len = len as usize;
    let end = len + 4;
    let got = read_up_to(from, input, end)?;
    if got < len {
        return Ok(None);
    }
    calls::answer(call, wire::part_of(input, Part { start: 0, len }), out)?;
    lines::end(out)?;
    Ok(length_at(input, len, got == end))
}

// An input over the most bytes of its call, which is passed over.
fn over<R: Read, W: Write>(
    from: &mut R,
    input: &mut [u8],
    out: &mut W,
    len: u32,
) -> io::Result<Option<u32>> {
    if !pass_over(from, input, len as usize)? {
        return Ok(None);
    }
    lines::refused(out, Refusal::InputTooLong)?;
    lines::end(out)?;
    next_length(from, input)
}

// The length that stands at a place of the buffer, if it is whole.
fn length_at(input: &[u8], place: usize, whole: bool) -> Option<u32> {
    if whole {
        Some(wire::get_u32_le(input, place))
    } else {
        None
    }
}

// Reads n bytes and drops them; false where the input ends before.
fn pass_over<R: Read>(from: &mut R, input: &mut [u8], n: usize) -> io::Result<bool> {
    let mut left = n;
    while 0 < left {
        let got = read_up_to(from, input, left)?;
        if got == 0 {
            return Ok(false);
        }
        left -= got;
    }
    Ok(true)
}

// Reads up to n bytes, as many as the buffer has room for, to its front.
fn read_up_to<R: Read>(from: &mut R, input: &mut [u8], n: usize) -> io::Result<usize>
    ensures { IfOk result (λ k. k ≤ n) }
{
    if n < input.len() {
        return console::read_full(from, &mut input[..n]);
    }
    console::read_full(from, input)
}
