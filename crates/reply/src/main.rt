// `reply`: a script on standard input; its reply packet, raw, or the line `refused N`. It takes no arguments.
#![tactic(auto)]

ghost use Rattle.std.specs.Prelude.{IfSome, OnOk};
ghost use Rattle.std.specs.Io.KnownBytes.{Appends};
ghost use Rattle.refusals.specs.Refused.{number};
ghost use Rattle.reply.specs.Answer.{line_of, reply_to, answer_to};

use refusals::Refusal;
use std::io;
use std::io::{Read, Write};
use wire::Part;

// The most bytes of a script.
const MOST: usize = 65536;
// A buffer for it, with a byte more to tell a script that is longer.
const ROOM: usize = 65537;
// The most bytes of a packet.
const PACKET: usize = 65535;

fn main(rt: HostRuntime) -> io::Result<()> {
    // The program's own name is argument 0.
    if console::is_given(&rt, 1) {
        return usage(&rt);
    }
    answer_input(&mut rt.reader(), &mut io::writer(&rt))
}

fn usage(rt: &impl Eprint) -> io::Result<()> {
    rt.eprintln("usage: reply < SCRIPT")
}

// Answers all that can be read.
fn answer_input<R: Read, W: Write>(from: &mut R, out: &mut W) -> io::Result<()>
    ensures { OnOk result (IfSome (R.remaining from.old)
        (λ s. Appends (W.contents out.old) (W.contents out.new) (answer_to s))) }
{
    let mut input = [0u8; ROOM];
    let n = console::read_full(from, &mut input)?;
    if n <= MOST {
        reply(out, wire::part_of(&input, Part { start: 0, len: n }))
    } else {
        refused(out, Refusal::InputTooLong)
    }
}

fn reply<W: Write>(out: &mut W, script: &[u8]) -> io::Result<()>
    ensures { OnOk result (Appends (W.contents out.old) (W.contents out.new) (reply_to script.now)) }
{
    let mut packet = [0u8; PACKET];
    match result::build_query_results(script, &mut packet) {
        Ok(length) => write(
            out,
            wire::part_of(
                &packet,
                Part {
                    start: 0,
                    len: length,
                },
            ),
        ),
        Err(refusal) => refused(out, refusal),
    }
}

// The line `refused N`.
fn refused<W: Write>(out: &mut W, refusal: Refusal) -> io::Result<()>
    ensures { OnOk result (Appends (W.contents out.old) (W.contents out.new) (line_of (number refusal))) }
{
    let number = refusal.number();
    writeln!(out, "refused {number}")
}

fn write<W: Write>(out: &mut W, bytes: &[u8]) -> io::Result<()>
    ensures { OnOk result (Appends (W.contents out.old) (W.contents out.new) bytes.now) }
{
    out.write_all(bytes)
}
