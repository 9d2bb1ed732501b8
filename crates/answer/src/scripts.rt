// The calls that take a script.
use crate::lines;
use fit::Misfit;
use refusals::Refusal;
use std::io;
use std::io::Write;
use wire::Part;

// The most bytes of a packet, and of a reply in packets: 65,527 bytes in packets of 512.
const PACKET: usize = 65535;

const PACKETS: usize = 66575;

// The bytes of the packet size before a script.
const SIZE: usize = 4;

// packet HEX
pub(crate) fn reply(input: &[u8], out: &mut impl Write) -> io::Result<()> {
    let mut packet = [0u8; PACKET];
    match result::build_query_results(input, &mut packet) {
        Ok(length) => packet_line(
            wire::part_of(
                &packet,
                Part {
                    start: 0,
                    len: length,
                },
            ),
            out,
        ),
        Err(refusal) => lines::refused(out, refusal),
    }
}

fn packet_line(packet: &[u8], out: &mut impl Write) -> io::Result<()> {
    lines::bytes_line(out, b"packet", packet)
}

// The script after a packet size.
fn after_size(input: &[u8]) -> &[u8] {
    wire::part_of(
        input,
        Part {
            start: SIZE,
            len: wire::left(input, SIZE),
        },
    )
}

// packet HEX of each packet, of the size that stands before the script
pub(crate) fn packets(input: &[u8], out: &mut impl Write) -> io::Result<()> {
    let size = wire::get_u32_le(input, 0);
    let mut packets = [0u8; PACKETS];
    match result::build_query_results_in_packets(after_size(input), size as usize, &mut packets) {
        Ok(length) => {
            let all = Part {
                start: 0,
                len: length,
            };
            packet_lines(wire::part_of(&packets, all), size, out)
        }
        Err(refusal) => lines::refused(out, refusal),
    }
}

// Packets of a size, one after another: a line each.
fn packet_lines(packets: &[u8], size: u32, out: &mut impl Write) -> io::Result<()> {
    if size == 0 {
        return Ok(());
    }
    for packet in packets.chunks(size as usize) {
        packet_line(packet, out)?;
    }
    Ok(())
}

// room N
pub(crate) fn room(input: &[u8], out: &mut impl Write) -> io::Result<()> {
    room_line(result::room_estimate(input), out)
}

// room N, in packets of the size that stands before the script
pub(crate) fn sized(input: &[u8], out: &mut impl Write) -> io::Result<()> {
    let size = wire::get_u32_le(input, 0);
    room_line(
        result::room_in_packets(after_size(input), size as usize),
        out,
    )
}

fn room_line(room: Result<usize, Refusal>, out: &mut impl Write) -> io::Result<()> {
    match room {
        Ok(n) => lines::number_line(out, b"room", n as u64),
        Err(refusal) => lines::refused(out, refusal),
    }
}

// fits, or the line of the first misfit
pub(crate) fn fit(input: &[u8], out: &mut impl Write) -> io::Result<()> {
    match fit::check(input) {
        Ok(None) => lines::text(out, b"fits\n"),
        Ok(Some(misfit)) => misfit_line(misfit, out),
        Err(refusal) => lines::refused(out, refusal),
    }
}

// misfit class SET, misfit column SET COLUMN, misfit cell SET ROW COLUMN
fn misfit_line(misfit: Misfit, out: &mut impl Write) -> io::Result<()> {
    match misfit {
        Misfit::Classification { set } => places_line(out, b"misfit class", &[set as u64]),
        Misfit::Column { set, column } => {
            places_line(out, b"misfit column", &[set as u64, column as u64])
        }
        Misfit::Cell { set, row, column } => places_line(
            out,
            b"misfit cell",
            &[set as u64, row as u64, column as u64],
        ),
    }
}

fn places_line(out: &mut impl Write, word: &[u8], places: &[u64]) -> io::Result<()> {
    lines::text(out, word)?;
    lines::numbers(out, places)?;
    lines::end(out)
}
