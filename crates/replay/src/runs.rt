// A run over a list, line by line. A line that is empty or begins with `#` is a comment.
use crate::{calls, words};
use std::io;
use std::io::Write;

// Where a run stands: the function whose lines are being counted and how many there were, how many lines in all, and how
// many differ.
#[derive(Clone, Copy)]
pub(crate) struct Run<'a> {
    name: &'a [u8],
    count: u64,
    lines: u64,
    differ: u64,
}

impl<'a> Run<'a> {
    fn fresh() -> Self {
        Run {
            name: &[],
            count: 0,
            lines: 0,
            differ: 0,
        }
    }

    // At the first line of another function.
    fn named(mut self, name: &'a [u8]) -> Self {
        self.name = name;
        self.count = 0;
        self
    }

    // With a line replayed.
    fn counted(mut self, same: bool) -> Self {
        self.count = one_more(self.count);
        self.lines = one_more(self.lines);
        if !same {
            self.differ = one_more(self.differ);
        }
        self
    }
}

// Counts stay far below 2^64.
fn one_more(n: u64) -> u64 {
    n.wrapping_add(1)
}

// The whole list.
pub(crate) fn over<'a>(list: &'a [u8], out: &mut impl Write) -> io::Result<Run<'a>> {
    let mut run = Run::fresh();
    for (before, line) in list.split(|byte| *byte == b'\n').enumerate() {
        run = turn(line, one_more(before as u64), run, out)?;
    }
    print_count(run, out)?;
    Ok(run)
}

fn turn<'a>(
    line: &'a [u8],
    number: u64,
    run: Run<'a>,
    out: &mut impl Write,
) -> io::Result<Run<'a>> {
    if is_comment(line) {
        return Ok(run);
    }
    let run = begun(run, words::word(line, 0), out)?;
    replayed(line, number, run, out)
}

fn is_comment(line: &[u8]) -> bool {
    match line.first() {
        Some(byte) => *byte == b'#',
        None => true,
    }
}

// The count of a function's lines ends where another's begin.
fn begun<'a>(run: Run<'a>, name: &'a [u8], out: &mut impl Write) -> io::Result<Run<'a>> {
    if run.name == name {
        return Ok(run);
    }
    print_count(run, out)?;
    Ok(run.named(name))
}

fn replayed<'a>(
    line: &[u8],
    number: u64,
    run: Run<'a>,
    out: &mut impl Write,
) -> io::Result<Run<'a>> {
    let same = calls::holds(line);
    if !same {
        writeln!(out, "line {number} differs")?;
    }
    Ok(run.counted(same))
}

// NAME COUNT
fn print_count(run: Run, out: &mut impl Write) -> io::Result<()> {
    if run.count == 0 {
        return Ok(());
    }
    print(out, run.name)?;
    writeln!(out, " {}", run.count)
}

// replayed LINES, COUNT differ
pub(crate) fn report(run: Run, out: &mut impl Write) -> io::Result<()> {
    writeln!(out, "replayed {}, {} differ", run.lines, run.differ)
}

pub(crate) fn print(out: &mut impl Write, text: &[u8]) -> io::Result<()> {
    out.write_all(text)
}
