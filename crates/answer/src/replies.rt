// The calls that read a reply: the lines of a run of the reply reader from the fresh position.
ghost use Rattle.std.specs.Prelude.{◌≡◌, ◌+◌, ◌≤◌, true, length};
ghost use Rattle.payload.specs.Frames.{lies};

use crate::lines;
use cells::Value;
use payload::frames::{self, Frame};
use reader::{Position, Token};
use std::io;
use std::io::Write;
use wire::Part;

// No run takes more steps: a token takes a byte or more, packets have at most 131,072, and then comes the end or a refusal.
const MOST_STEPS: usize = 131073;
// The bytes of a chunk's length.
const CHUNK_LENGTH: usize = 4;

// The most bytes of a payload: that of one packet after another, of 131,072 bytes.
const MOST_PAYLOAD: usize = 131072;

// A line a token, then `end` or `refused N`. Where places are asked for, each part's follows it.
pub(crate) fn answer(packets: &[u8], places: bool, out: &mut impl Write) -> io::Result<()> {
    let mut joined = [0u8; MOST_PAYLOAD];
    let len = payload_of(packets, &mut joined);
    let payload = wire::part_of(&joined, Part { start: 0, len });
    run(packets, payload, places, out)
}

// The payload of packets, joined as far as their headers pass: how many bytes of the buffer it has.
fn payload_of(packets: &[u8], joined: &mut [u8]) -> usize {
    match frames::resolve(packets, 1, packet::PACKET_HEADER_SIZE) {
        Ok(here) => join_from(packets, here.frame, joined),
        Err(_) => 0,
    }
}

// The payload from a packet on, each packet's at its place.
fn join_from(packets: &[u8], first: Frame, joined: &mut [u8]) -> usize
    requires { lies packets.now first ≡ true }
{
    let mut frame = first;
    for _ in 0..packets.len() {
        wire::put_slice(joined, frame.base, payload_in(packets, frame));
        match frames::reach(packets, frame, frame.end, 1) {
            Ok(next) => frame = next,
            Err(_) => return frame.end,
        }
    }
    frame.end
}

// The payload of a packet.
fn payload_in(packets: &[u8], frame: Frame) -> &[u8]
    requires { lies packets.now frame ≡ true }
{
    let len = frame.end.saturating_sub(frame.base);
    let start = (frame.end + 8 * frame.number).saturating_sub(len);
    wire::part_of(packets, Part { start, len })
}

// The lines of a run over packets; parts are those of their payload.
fn run(packets: &[u8], payload: &[u8], places: bool, out: &mut impl Write) -> io::Result<()> {
    let mut position = Position::fresh();
    for _ in 0..MOST_STEPS {
        let step = position.step(packets);
        match step.answer {
            Ok(Some(token)) => token_line(payload, places, token, out)?,
            Ok(None) => return lines::text(out, b"end\n"),
            Err(refusal) => return lines::refused(out, refusal),
        }
        position = step.next;
    }
    Ok(())
}

fn token_line(payload: &[u8], places: bool, token: Token, out: &mut impl Write) -> io::Result<()> {
    match token {
        Token::ColMetadata(count) => lines::number_line(out, b"81", count as u64),
        Token::Column {
            user_type,
            flags,
            code,
            limit,
            collation,
            name,
        } => {
            lines::text(out, b"col")?;
            lines::number(out, user_type as u64)?;
            lines::word(out, flags)?;
            lines::bytes(out, &[code])?;
            lines::number(out, limit as u64)?;
            two_parts(payload, places, collation, name, out)
        },
        Token::Row => lines::text(out, b"D1\n"),
        Token::Cell(value) => cell_line(payload, places, value, out),
        Token::Done {
            status,
            command,
            count,
        } => done_line(status, command, count, out),
        Token::Message {
            kind,
            number,
            state,
            class,
            text,
            server,
            procedure,
            line,
        } => {
            let numbers = [number as u64, state as u64, class as u64, line as u64];
            message_kind(out, kind)?;
            lines::numbers(out, &numbers)?;
            part(payload, places, text, out)?;
            two_parts(payload, places, server, procedure, out)
        },
    }
}

// FD STATUS COMMAND COUNT
fn done_line(status: u16, command: u16, count: u64, out: &mut impl Write) -> io::Result<()> {
    lines::text(out, b"FD")?;
    lines::word(out, status)?;
    lines::word(out, command)?;
    lines::number(out, count)?;
    lines::end(out)
}

// AA for an error, AB for an info.
fn message_kind(out: &mut impl Write, kind: u8) -> io::Result<()> {
    if kind == 0xAA {
        lines::text(out, b"AA")
    } else {
        lines::text(out, b"AB")
    }
}

// num N, part HEX, or null
pub(crate) fn cell_line(
    payload: &[u8],
    places: bool,
    value: Value,
    out: &mut impl Write,
) -> io::Result<()> {
    match value {
        Value::Number(n) => {
            lines::text(out, b"num")?;
            lines::number(out, n)?;
            lines::end(out)
        },
        Value::Part(held) => {
            lines::text(out, b"part")?;
            part(payload, places, held, out)?;
            lines::end(out)
        },
        Value::Max(held) => {
            lines::text(out, b"part")?;
            max_part(payload, places, held, out)?;
            lines::end(out)
        },
        Value::Null => lines::text(out, b"null\n"),
    }
}

// The two parts that a line ends with.
fn two_parts(
    payload: &[u8],
    places: bool,
    first: Part,
    second: Part,
    out: &mut impl Write,
) -> io::Result<()> {
    part(payload, places, first, out)?;
    part(payload, places, second, out)?;
    lines::end(out)
}

// A part's bytes, after a space.
fn part(payload: &[u8], places: bool, held: Part, out: &mut impl Write) -> io::Result<()> {
    lines::bytes(out, wire::part_of(payload, held))?;
    place(places, held, out)
}

// A Max part: its chunks' bytes joined, after a space.
fn max_part(payload: &[u8], places: bool, held: Part, out: &mut impl Write) -> io::Result<()> {
    joined(wire::part_of(payload, held), out)?;
    place(places, held, out)
}

fn joined(held: &[u8], out: &mut impl Write) -> io::Result<()> {
    if held.len() <= CHUNK_LENGTH {
        return lines::text(out, b" -");
    }
    lines::text(out, b" ")?;
    chunks(held, out)
}

fn chunks(held: &[u8], out: &mut impl Write) -> io::Result<()> {
    let mut start = 0;
    while CHUNK_LENGTH <= wire::left(held, start) {
        let len = chunk_length(held, start);
        start += CHUNK_LENGTH;
        lines::digits(out, wire::part_of(held, Part { start, len }))?;
        start += len;
    }
    Ok(())
}

// The length of the chunk at a place, no more than what follows it.
fn chunk_length(held: &[u8], at: usize) -> usize
    requires { 4 + at ≤ length held.now }
    ensures { 4 + at + result ≤ length held.now }
{
    let len = wire::get_u32_le(held, at) as usize;
    len.min(held.len() - at - CHUNK_LENGTH)
}

// @START+LENGTH, after a space, where places are asked for.
fn place(places: bool, held: Part, out: &mut impl Write) -> io::Result<()> {
    if !places {
        return Ok(());
    }
    lines::text(out, b" @")?;
    lines::decimal(out, held.start)?;
    lines::text(out, b"+")?;
    lines::decimal(out, held.len)
}
