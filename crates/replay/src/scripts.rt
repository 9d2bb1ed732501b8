// The room for replies, and the fit check.
use crate::{told, words};
use fit::Misfit;
use refusals::Refusal;

// The room for a script's reply.
pub(crate) fn room(input: &[u8], out: &mut [u8]) -> usize {
    tell_room(result::room_estimate(input), out)
}

// The same in packets of a size: SIZE SCRIPT.
pub(crate) fn room_in_packets(line: &[u8], input: &[u8], out: &mut [u8]) -> usize {
    tell_room(
        result::room_in_packets(input, words::u64_at(line, 1) as usize),
        out,
    )
}

fn tell_room(room: Result<usize, Refusal>, out: &mut [u8]) -> usize {
    match room {
        Ok(n) => told::number(out, 0, n as u64),
        Err(refusal) => told::refused(out, 0, refusal),
    }
}

// fits, or the first misfit: class SET, column SET COLUMN or cell SET ROW COLUMN
pub(crate) fn fits(input: &[u8], out: &mut [u8]) -> usize {
    match fit::check(input) {
        Ok(None) => told::word(out, 0, b"fits"),
        Ok(Some(misfit)) => tell_misfit(misfit, out),
        Err(refusal) => told::refused(out, 0, refusal),
    }
}

fn tell_misfit(misfit: Misfit, out: &mut [u8]) -> usize {
    match misfit {
        Misfit::Classification { set } => told::words(out, 0, b"class", &[set as u64]),
        Misfit::Column { set, column } => {
            told::words(out, 0, b"column", &[set as u64, column as u64])
        }
        Misfit::Cell { set, row, column } => {
            told::words(out, 0, b"cell", &[set as u64, row as u64, column as u64])
        }
    }
}
