// Captures of requests.
use crate::{told, words};
use refusals::Refusal;

// The most slots that are lent, and what they hold before a call.
const SLOTS: usize = 64;

const PATTERN: u64 = 0xA5A5_A5A5_A5A5_A5A5;

// `capture_marks SLOTS CAPTURE`: so many slots are lent. How many records are marked, and the number of each.
pub(crate) fn marks(line: &[u8], input: &[u8], out: &mut [u8]) -> usize {
    let mut slots = [PATTERN; SLOTS];
    let lent = words::u64_at(line, 1) as usize;
    match marks_lent(input, &mut slots, lent) {
        Ok(count) => {
            let at = told::number(out, 0, count as u64);
            tell_slots(&slots, count, out, at)
        }
        Err(refusal) => {
            let at = told::refused(out, 0, refusal);
            tell_slots(&slots, 0, out, at)
        }
    }
}

fn marks_lent(capture: &[u8], slots: &mut [u64], lent: usize) -> Result<usize, Refusal> {
    let lent = lent.min(slots.len());
    capture_marks::marks(capture, &mut slots[..lent])
}

// The first slots, and a word that no line holds where one of the others was written.
fn tell_slots(slots: &[u64], count: usize, out: &mut [u8], from: usize) -> usize {
    let mut at = from;
    for (i, slot) in slots.iter().enumerate() {
        at = tell_slot(*slot, i < count, out, at);
    }
    at
}

fn tell_slot(slot: u64, is_told: bool, out: &mut [u8], at: usize) -> usize {
    if is_told {
        return told::number(out, at, slot);
    }
    if slot == PATTERN {
        return at;
    }
    told::word(out, at, b"spilled")
}
