// What a script emits (document 01, 'What a script emits') and how long it is: faults and sizes, found in two passes over the
// records, the script's verdict and the size pass; and what the writing pass asks too: the records of a kind that stand next,
// a set's error, a column's collation.
#![tactic(auto)]

ghost use Rattle.std.specs.Prelude.{◌≡◌, cond, ◌||◌, [], ◌∷◌, ◌++◌, ◌+◌, ◌^◌, ◌≤◌, ◌<◌, length, take, drop};
ghost use Rattle.refusals.specs.Numbers.{name_too_long};
ghost use Rattle.refusals.specs.Refused.{numbered, refused_by};
ghost use Rattle.script.specs.Records.{records};
ghost use Rattle.script.specs.Runs.{ahead};
ghost use Rattle.token.specs.Types.{type_code, collation_size};
ghost use Rattle.token.specs.Names.{long_name};
ghost use Rattle.token.specs.Tokens.{cell, long, token_bytes};
ghost use Rattle.emission.specs.Emission.{token_piece, column_token, column_piece, info_token, value_cell, cell_pieces, leading_status, bytes_in};
ghost use Rattle.emission.specs.Walk.{begin_pieces, pieces_of, emit_from, error_in, lead_pieces, sets_of, walked};
ghost use Rattle.emission.specs.Refusal.{fault_in};
ghost use Rattle.emission.specs.Length.{measure_of};
ghost use Rattle.emission.specs.Runs.{capped, record_size, record_fault, numbered_run, run_of, error_at, error_found};
ghost use Rattle.emission.specs.Inner.{longer_run, Turned, plain_turn, Sizes, after_done};

use refusals::Refusal;
use script::Found;
use token::{ColumnValue, SqlDataType};
use wire::Part;

// The records of one kind that stand next at a place: how many, the bytes of their payloads, what they add to a reply as
// far as it matters, the first fault among them, and the place after them. The fault stands beside the rest, which the writing
// pass takes whatever it is.
#[derive(Clone, Copy)]
pub struct Run {
    pub count: usize,
    pub bytes: usize,
    pub size: usize,
    pub fault: Result<(), Refusal>,
    pub next: usize,
}

// What a record emits that has no fault: its size as far as it matters, and the place where the walk goes on.
#[derive(Clone, Copy)]
struct Turn {
    size: usize,
    next: usize,
}

// A size and more, up to 65,536.
#[tactic(auto, unfolding(crate::specs::Runs::capped))]
fn grown(size: usize, more: usize) -> usize
    ensures { result ≡ capped (size + more) }
{
    size.saturating_add(more).min(65536)
}

// A size and more, neither over 65,536.
#[tactic(auto, unfolding(crate::specs::Runs::capped))]
fn added(size: usize, more: usize) -> usize
    requires { (size ≤ 65536) × (more ≤ 65536) }
    ensures { result ≡ capped (size + more) }
{
    (size + more).min(65536)
}

// The collation of a column of a type, where the type has one.
pub fn collation(t: SqlDataType, p: &[u8]) -> &[u8]
    ensures { result.now ≡ take (collation_size (type_code t)) (drop 1 p.now) }
{
    let len = token::collation_size(token::tds_type_code(t));
    wire::part_of(p, Part { start: 1, len })
}

// What a column of a type adds to a reply.
fn typed_size(t: SqlDataType, p: &[u8]) -> usize
    ensures { result ≡ capped (length (token_bytes (column_token t p.now))) }
{
    let width = token::length_width(token::tds_type_code(t)) as usize;
    let collated = grown(collation(t, p).len(), 8 + width);
    grown(collated, script::rest_after(p, 6).len())
}

// What a column adds to a reply.
fn column_size(p: &[u8]) -> usize
    ensures { result ≡ capped (length (bytes_in (column_piece p.now))) }
{
    match token::data_type_of(wire::get_u8(p, 0)) {
        Some(t) => typed_size(t, p),
        None => 0,
    }
}

// Whether an info's names are not too long, or the refusal.
fn names_fault(server: &[u8], procedure: &[u8]) -> Result<(), Refusal>
    ensures { refused_by result ≡ cond (long_name server.now || long_name procedure.now) name_too_long 0 }
{
    token::name_fault(server)?;
    token::name_fault(procedure)
}

// Whether a column's name is not too long, or the refusal.
fn column_fault(p: &[u8]) -> Result<(), Refusal>
    ensures { refused_by result ≡ fault_in (column_piece p.now) }
{
    match token::data_type_of(wire::get_u8(p, 0)) {
        Some(_) => token::name_fault(script::rest_after(p, 6)),
        None => Ok(()),
    }
}

// What a column or a chunk adds to a reply, and its fault.
#[tactic(auto, unfolding(crate::specs::Runs::record_size))]
fn record_size(kind: u16, p: &[u8]) -> usize
    ensures { result ≡ capped (record_size kind p.now) }
{
    if kind == script::COLUMN {
        return column_size(p);
    }
    grown(4, p.len())
}

#[tactic(auto, unfolding(crate::specs::Runs::record_fault))]
fn record_fault(kind: u16, p: &[u8]) -> Result<(), Refusal>
    ensures { refused_by result ≡ record_fault kind p.now }
{
    if kind == script::COLUMN {
        return column_fault(p);
    }
    if p.is_empty() {
        Err(Refusal::EmptyChunk)
    } else {
        Ok(())
    }
}

// The records of a kind that stand next at a place; there are none past the end.
pub fn run_at(s: &[u8], at: usize, kind: u16) -> Run
    ensures { numbered_run result ≡ run_of s.now at kind }
{
    let mut run = Run {
        count: 0,
        bytes: 0,
        size: 0,
        fault: Ok(()),
        next: at,
    };
    while let Found::Record {
        kind: k,
        start,
        len,
    } = script::record_at(s, run.next)
    {
        if k != kind {
            break;
        }
        let after = start + len;
        run = longer(run, kind, &s[start..after], after);
    }
    run
}

// A run with one record more.
#[tactic(auto, using(crate::proofs::Sizes::first_refused), unfolding(crate::specs::Inner::longer_run))]
fn longer(run: Run, kind: u16, p: &[u8], next: usize) -> Run
    requires { (run.count + 1 < 2 ^ 64) × (run.bytes + length p.now < 2 ^ 64) }
    ensures { numbered_run result ≡ longer_run (numbered_run run) kind p.now next }
{
    Run {
        count: run.count + 1,
        bytes: run.bytes + p.len(),
        size: grown(run.size, record_size(kind, p)),
        fault: run.fault.and(record_fault(kind, p)),
        next,
    }
}

// The error of a kind in the set that goes on at a place, after its columns; past the end there is none.
pub fn error_in(s: &[u8], at: usize, kind: u16) -> Option<Part>
    ensures value { result ≡ error_at kind at (records (drop at s.now)) }
    ensures result_value { error_found s.now result ≡ error_in kind (records (drop at s.now)) }
{
    let mut place = at;
    while let Found::Record {
        kind: k,
        start,
        len,
    } = script::record_at(s, place)
    {
        if k == kind {
            return Some(Part { start, len });
        }
        if !((k == script::COLUMN) | (k == script::LEADING_ERROR)) {
            break;
        }
        place = start + len;
    }
    None
}

// What an error and its DONE add to a reply.
fn error_size(p: &[u8]) -> usize
    ensures { result ≡ capped (30 + length (drop 5 p.now)) }
{
    grown(30, script::rest_after(p, 5).len())
}

// The beginning of a set: COLMETADATA, columns, classification.
fn set_turn(s: &[u8], classification: &[u8], next: usize) -> Result<Turn, Refusal>
    requires { next ≤ length s.now }
    ensures { Turned (begin_pieces classification.now (records (drop next s.now))) s.now next result }
{
    let run = run_at(s, next, script::COLUMN);
    run.fault?;
    Ok(Turn {
        size: grown(grown(3, classification.len()), run.size),
        next: run.next,
    })
}

// An info.
fn info_turn(s: &[u8], p: &[u8], next: usize) -> Result<Turn, Refusal>
    requires { next ≤ length s.now }
    ensures { Turned (token_piece (info_token p.now) ∷ []) s.now next result }
{
    let server = script::info_server(p);
    let procedure = script::info_procedure(p);
    names_fault(server, procedure)?;
    let texts = grown(
        grown(script::info_message(p).len(), server.len()),
        procedure.len(),
    );
    Ok(Turn {
        size: grown(17, texts),
        next,
    })
}

// A cell in chunks.
fn chunked_turn(s: &[u8], next: usize) -> Result<Turn, Refusal>
    requires { next ≤ length s.now }
    ensures { Turned (token_piece (cell (long (ahead 6 (records (drop next s.now))))) ∷ []) s.now next result }
{
    let run = run_at(s, next, script::CHUNK);
    run.fault?;
    Ok(Turn {
        size: grown(12, run.size),
        next: run.next,
    })
}

// A record that has no fault and takes no other with it.
fn plain_turn(size: usize, next: usize) -> Result<Turn, Refusal>
    ensures { result ≡ plain_turn size next }
{
    Ok(Turn { size, next })
}

// A cell of a value, with its chunks where it has them.
fn value_turn(s: &[u8], value: ColumnValue, p: &[u8], next: usize) -> Result<Turn, Refusal>
    requires { next ≤ length s.now }
    ensures { Turned (token_piece (cell (value_cell value (drop 1 p.now) (ahead 6 (records (drop next s.now))))) ∷ []) s.now next result }
{
    match value {
        ColumnValue::TinyInt => plain_turn(2, next),
        ColumnValue::SmallInt => plain_turn(3, next),
        ColumnValue::Int => plain_turn(5, next),
        ColumnValue::BigInt => plain_turn(9, next),
        ColumnValue::NVarChar => plain_turn(grown(2, script::rest_after(p, 1).len()), next),
        ColumnValue::NVarCharMax => chunked_turn(s, next),
        ColumnValue::NVarCharMaxNull => plain_turn(8, next),
        ColumnValue::VarCharMax => chunked_turn(s, next),
        ColumnValue::VarBinaryMax => chunked_turn(s, next),
        ColumnValue::Null => plain_turn(1, next),
    }
}

// A cell.
fn cell_turn(s: &[u8], p: &[u8], next: usize) -> Result<Turn, Refusal>
    requires { next ≤ length s.now }
    ensures { Turned (cell_pieces p.now (ahead 6 (records (drop next s.now)))) s.now next result }
{
    match token::column_value_of(wire::get_u8(p, 0)) {
        Some(value) => value_turn(s, value, p, next),
        None => plain_turn(0, next),
    }
}

// What a record after the first set's emits.
fn turn_at(s: &[u8], kind: u16, p: &[u8], next: usize) -> Result<Turn, Refusal>
    requires { next ≤ length s.now }
    ensures { Turned (pieces_of 0 kind p.now (records (drop next s.now))) s.now next result }
{
    match kind {
        script::SET => Ok(ended_turn(set_turn(s, p, next)?)),
        script::INFO => info_turn(s, p, next),
        script::TRAILING_INFO => info_turn(s, p, next),
        script::ROW => Ok(Turn { size: 1, next }),
        script::CELL => cell_turn(s, p, next),
        _ => Ok(Turn { size: 0, next }),
    }
}

// A turn after the DONE of the set before.
#[tactic(auto, unfolding(crate::specs::Inner::after_done))]
fn ended_turn(t: Turn) -> Turn
    ensures { result ≡ after_done t }
{
    Turn {
        size: grown(13, t.size),
        next: t.next,
    }
}

// The size of what the records from a place on emit, after bytes before.
fn sizes_from(s: &[u8], at: usize, before: usize) -> Result<usize, Refusal>
    requires { (at ≤ length s.now) × (before ≤ 65536) }
    ensures { Sizes (emit_from 0 (records (drop at s.now))) before result }
{
    let mut place = at;
    let mut size = before;
    while let Found::Record { kind, start, len } = script::record_at(s, place) {
        let next = start + len;
        let turn = turn_at(s, kind, &s[start..next], next)?;
        size = added(size, turn.size);
        place = turn.next;
    }
    Ok(grown(size, 13))
}

// The size of the sets of a script whose first set has the classification and goes on at next, after bytes before.
fn sets_size(s: &[u8], classification: &[u8], next: usize, before: usize) -> Result<usize, Refusal>
    requires { next ≤ length s.now }
    ensures { Sizes (begin_pieces classification.now (records (drop next s.now)) ++ emit_from 0 (records (drop next s.now))) before result }
{
    let turn = set_turn(s, classification, next)?;
    sizes_from(s, turn.next, grown(before, turn.size))
}

// What the error of a set, where it has one, and its DONE add to a reply.
fn lead_size(s: &[u8], error: Option<Part>) -> usize
    ensures { result ≡ capped (length (bytes_in (lead_pieces leading_status (error_found s.now error)))) }
{
    match error {
        Some(part) => error_size(wire::part_of(s, part)),
        None => 0,
    }
}

// The size of a reply whose first set has the classification and goes on at next.
fn reply_size(s: &[u8], classification: &[u8], next: usize) -> Result<usize, Refusal>
    requires { next ≤ length s.now }
    ensures { Sizes (sets_of classification.now (records (drop next s.now))) 8 result }
{
    match error_in(s, next, script::TERMINAL_ERROR) {
        Some(part) => Ok(grown(8, error_size(wire::part_of(s, part)))),
        None => {
            let lead = lead_size(s, error_in(s, next, script::LEADING_ERROR));
            sets_size(s, classification, next, grown(8, lead))
        }
    }
}

// The size of a script's reply.
fn emitted_size(s: &[u8]) -> Result<usize, Refusal>
    ensures { Sizes (walked s.now) 8 result }
{
    let Found::Record { start, len, .. } = script::record_at(s, 0) else {
        return Ok(8);
    };
    let next = start + len;
    reply_size(s, &s[start..next], next)
}

// The exact length of a script's reply, or its refusal, 11 to 17: two passes over its records.
pub fn reply_length(s: &[u8]) -> Result<usize, Refusal>
    ensures { numbered result ≡ measure_of s.now }
{
    script::verdict(s)?;
    let size = emitted_size(s)?;
    if 65535 < size {
        return Err(Refusal::ResultTooLong);
    }
    Ok(size)
}
