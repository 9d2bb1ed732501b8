// `replay`: makes the calls of a list (tests/vectors), which it reads on standard input, on the proved crates, and
// compares the answers. Prints how many lines of each function it replayed, the number of each line that differs, and
// last `replayed N, D differ`.
#![tactic(auto)]

mod builds;
mod calls;
mod captures;
mod headers;
mod labels;
mod logins;
mod procedures;
mod replies;
mod requests;
mod runs;
mod scripts;
mod spaces;
mod told;
mod words;

use std::io;

fn main(rt: HostRuntime) -> io::Result<()> {
    let mut list = spaces::list();
    let n = console::read_full(&mut rt.reader(), &mut list)?;
    let mut out = io::writer(&rt);
    if n < spaces::LIST {
        let run = runs::over(&list[..n], &mut out)?;
        runs::report(run, &mut out)
    } else {
        runs::print(&mut out, b"the list is too long\n")
    }
}
