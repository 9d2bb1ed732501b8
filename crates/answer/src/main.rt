// `answer CALL`: one call of the crates, its input on standard input, its answer as lines of text.
// `answer many CALL`: any number of inputs, each a 4-byte little-endian length and the bytes; an empty line follows each answer.
// Other arguments: a line on standard error says what it takes, and standard input is not read.
#![tactic(auto)]

mod calls;
mod gathering;
mod labels;
mod lines;
mod logins;
mod procedures;
mod replies;
mod requests;
mod runs;
mod scripts;

use calls::Call;
use gathering::gathering_for;
use std::env::Env;
use std::io;
use std::io::Write;

fn main(rt: HostRuntime) -> io::Result<()> {
    let mut name = [0u8; 16];
    let first = console::argument(&rt, 1, &mut name);
    if &name[..first] == b"many".as_slice() {
        many(&rt, named_last(&rt, 2, 3))
    } else {
        once(&rt, named_last(&rt, 1, 2))
    }
}

// The call that an argument names, where as many are given: the program's own name counts, and none follows the call's.
fn named_last(rt: &impl Env, argument: usize, count: usize) -> Call {
    if console::is_given(rt, count) {
        return Call::Unknown;
    }
    calls::named(rt, argument)
}

fn once<R: Input + Print + Eprint>(rt: &R, call: Call) -> io::Result<()> {
    if let Call::Unknown = call {
        return usage(rt);
    }
    let mut input = [0u8; runs::ROOM];
    let mut out = gathering_for(io::writer(rt));
    let done = runs::once(call, &mut rt.reader(), &mut input, &mut out);
    // What was answered before a read failed is written too.
    out.flush()?;
    done
}

fn many<R: Input + Print + Eprint>(rt: &R, call: Call) -> io::Result<()> {
    if let Call::Unknown = call {
        return usage(rt);
    }
    let mut input = [0u8; runs::ROOM];
    let mut out = gathering_for(io::writer(rt));
    let done = runs::many(call, &mut rt.reader(), &mut input, &mut out);
    // What was answered before a read failed is written too.
    out.flush()?;
    done
}

fn usage(rt: &impl Eprint) -> io::Result<()> {
    rt.eprintln(
        "usage: answer [many] CALL < INPUT, where CALL is one of: reply packets room sized fit tokens places batch trans descriptor fedauth header login rpc read_label write_label",
    )
}
