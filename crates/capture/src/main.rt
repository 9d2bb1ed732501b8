// `capture`: a capture of requests on standard input; the numbers of its marked records, one a line, or only the line
// `refused N`. It takes no arguments.
#![tactic(auto)]

use itoa::Buffer;
use refusals::Refusal;
use std::io;
use wire::Part;

// The most bytes of a capture.
const MOST: usize = 65536;
// A buffer for it, with a byte more to tell a capture that is longer.
const ROOM: usize = 65537;
// The most marks of a capture: a tenth of its bytes (capture_marks/specs/Enough).
const MARKS: usize = 6553;
// The most bytes of their lines: a record's number is under 10,923, and its line has 6 bytes at most.
const LINES: usize = 39318;

fn main(rt: HostRuntime) -> io::Result<()> {
    // The program's own name is argument 0.
    if console::is_given(&rt, 1) {
        return usage(&rt);
    }
    answer_input(&rt)
}

fn usage(rt: &impl Eprint) -> io::Result<()> {
    rt.eprintln("usage: capture < CAPTURE")
}

fn answer_input(rt: &(impl Input + Print)) -> io::Result<()> {
    let mut input = [0u8; ROOM];
    let n = console::read_full(&mut rt.reader(), &mut input)?;
    if n <= MOST {
        tell(rt, wire::part_of(&input, Part { start: 0, len: n }))
    } else {
        refused(rt, Refusal::InputTooLong)
    }
}

fn tell(rt: &impl Print, capture: &[u8]) -> io::Result<()> {
    let mut numbers = [0u64; MARKS];
    match capture_marks::marks(capture, &mut numbers) {
        Ok(count) => write_numbers(rt, first(&numbers, count)),
        Err(refusal) => refused(rt, refusal),
    }
}

// The first of some numbers.
fn first(numbers: &[u64], count: usize) -> &[u64] {
    &numbers[..count.min(numbers.len())]
}

// A line for each number, all at once.
fn write_numbers(rt: &impl Print, numbers: &[u64]) -> io::Result<()> {
    let mut lines = [0u8; LINES];
    let at = put_numbers(numbers, &mut lines);
    write(rt, &lines, at)
}

fn put_numbers(numbers: &[u64], lines: &mut [u8]) -> usize {
    let mut at = 0;
    for number in numbers {
        at = put_line(lines, at, *number);
    }
    at
}

// The line `refused N`.
fn refused(rt: &impl Print, refusal: Refusal) -> io::Result<()> {
    let mut line = [0u8; 32];
    let at = wire::put_slice(&mut line, 0, b"refused ");
    let at = put_line(&mut line, at, refusal.number() as u64);
    write(rt, &line, at)
}

// A number and the end of its line; the place after it.
fn put_line(lines: &mut [u8], at: usize, number: u64) -> usize {
    let mut digits = Buffer::new();
    let at = wire::put_slice(lines, at, digits.format(number).as_bytes());
    wire::put_u8(lines, at, b'\n')
}

// The first of some bytes.
fn write(rt: &impl Print, bytes: &[u8], len: usize) -> io::Result<()> {
    rt.write_all(wire::part_of(bytes, Part { start: 0, len }))
}
