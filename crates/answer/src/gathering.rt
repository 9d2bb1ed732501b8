// Text that gathers in a buffer until there is no room for more. Nothing here allocates.
use std::io;
use std::io::Write;
use wire::Part;

// The most bytes that gather before they are written.
const ROOM: usize = 65536;

// A writer with the bytes that are still to be given to it.
#[derive(Drop)]
pub(crate) struct Gathering<W> {
    buf: [u8; ROOM],
    len: usize,
    to: W,
}

pub(crate) fn gathering_for<W: Write>(to: W) -> Gathering<W> {
    Gathering {
        buf: [0u8; ROOM],
        len: 0,
        to,
    }
}

impl<W: Write> Write for Gathering<W> {
    fn write(&mut self, bytes: &[u8]) -> io::Result<usize> {
        if wire::left(&self.buf, self.len) < bytes.len() {
            self.flush()?;
        }
        if ROOM < bytes.len() {
            return self.to.write(bytes);
        }
        self.len = wire::put_slice(&mut self.buf, self.len, bytes);
        Ok(bytes.len())
    }

    fn flush(&mut self) -> io::Result<()> {
        let len = self.len;
        self.len = 0;
        self.to
            .write_all(wire::part_of(&self.buf, Part { start: 0, len }))
    }
}
