// The calls that read and write event labels.
use crate::lines;
use std::io;
use std::io::Write;
use wire::Part;

// The most bytes of a label's text, and of its value: those of 65,535 characters.
const TEXT: usize = 131070;

const VALUE: usize = 65551;

// text HEX, or null
pub(crate) fn read(input: &[u8], out: &mut impl Write) -> io::Result<()> {
    let mut text = [0u8; TEXT];
    match windows1252::read_value(input, &mut text) {
        Ok(Some(len)) => {
            let held = Part { start: 0, len };
            lines::bytes_line(out, b"text", wire::part_of(&text, held))
        },
        Ok(None) => lines::text(out, b"null\n"),
        Err(refusal) => lines::refused(out, refusal),
    }
}

// value HEX
pub(crate) fn write(input: &[u8], out: &mut impl Write) -> io::Result<()> {
    let mut value = [0u8; VALUE];
    match windows1252::write_value(input, &mut value) {
        Ok(len) => {
            let held = Part { start: 0, len };
            lines::bytes_line(out, b"value", wire::part_of(&value, held))
        },
        Err(refusal) => lines::refused(out, refusal),
    }
}
