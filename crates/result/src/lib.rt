// The reply of a script (document 01, 'The reply packet'): `build_query_results` of the Rust, with its narrowings, the same reply
// in packets of an agreed size (document 02, 2026-02), and the room estimate. The writing pass is the third over the records: it comes after every refusal is ruled out by emission's two.
#![tactic(auto)]

ghost use Rattle.std.specs.Prelude.{◌≡◌, Ok, [], ◌+◌, ◌^◌, ◌≤◌, ◌<◌, length, drop};
ghost use Rattle.std.proofs.Math.Option.{some};
ghost use Rattle.refusals.specs.Refused.{numbered};
ghost use Rattle.wire.specs.Fields.{flat};
ghost use Rattle.wire.specs.Over.{overwrite};
ghost use Rattle.wire.specs.Puts.{Puts};
ghost use Rattle.packet.specs.Cut.{packets_of};
ghost use Rattle.script.specs.Records.{records};
ghost use Rattle.script.specs.Runs.{ahead};
ghost use Rattle.token.specs.Tokens.{cell, long, token_bytes, put_chunks};
ghost use Rattle.emission.specs.Emission.{info_token, value_cell, bytes_in, column_piece, column_pieces, cell_pieces};
ghost use Rattle.emission.specs.Walk.{begin_pieces, pieces_of, rows_after, emit_from, lead_pieces, sets_of, walked};
ghost use Rattle.emission.specs.Runs.{error_found};
ghost use Rattle.emission.specs.Inner.{GoesOn};
ghost use Rattle.result.specs.Built.{room_of, room_at, fitted, leaves, built_of, buffer_of, built_in_packets, buffer_in_packets};

use refusals::Refusal;
use script::Found;
use token::{ColumnValue, Message};
use wire::{Part, Writer};

// The status of the DONE that ends a set: its row count is valid (0010), and where a set follows there is more (0001).
const MORE: u16 = 0x0011;

const LAST: u16 = 0x0010;

// The status of the DONE after an error, which ends no set.
const LEADING: u16 = 0x0003;

const TERMINAL: u16 = 0x0002;

fn put_column(w: &mut Writer, p: &[u8])
    requires { w.old.at ≤ length w.old.buf.now }
    ensures { Puts w.old (bytes_in (column_piece p.now)) w.new }
{
    match token::data_type_of(wire::get_u8(p, 0)) {
        Some(t) => {
            let collation = emission::collation(t, p);
            token::put_column(w, t, collation, script::rest_after(p, 6));
        }
        None => {}
    }
}

fn put_info(w: &mut Writer, p: &[u8])
    ensures { Puts w.old (token_bytes (info_token p.now)) w.new }
{
    let info = Message {
        kind: token::INFO,
        number: wire::get_u32_le(p, 0),
        state: wire::get_u8(p, 4),
        class: wire::get_u8(p, 5),
        text: script::info_message(p),
        server: script::info_server(p),
        procedure: script::info_procedure(p),
        line: wire::get_u32_le(p, 6),
    };
    token::put_message(w, &info);
}

// An error and its DONE.
fn put_error(w: &mut Writer, p: &[u8], status: u16)
    ensures { Puts w.old (bytes_in (lead_pieces status (some p.now))) w.new }
{
    let none = &p[..0];
    let error = Message {
        kind: token::ERROR,
        number: wire::get_u32_le(p, 0),
        state: 1,
        class: wire::get_u8(p, 4),
        text: script::rest_after(p, 5),
        server: none,
        procedure: none,
        line: 1,
    };
    token::put_message(w, &error);
    token::put_done(w, status, 0);
}

// The columns that stand next in s.
fn put_columns(w: &mut Writer, s: &[u8], from: usize)
    requires { (w.old.at ≤ length w.old.buf.now) × (from ≤ length s.now) }
    ensures { Puts w.old (bytes_in (column_pieces (ahead 2 (records (drop from s.now))))) w.new }
{
    let mut place = from;
    loop {
        match script::record_at(s, place) {
            Found::Record { kind, start, len } => {
                if kind != script::COLUMN {
                    return;
                }
                let next = start + len;
                put_column(w, &s[start..next]);
                place = next;
            }
            Found::Cut | Found::End => {
                return;
            }
        }
    }
}

// The chunks that stand next in s, and the zero length after them.
fn put_chunks(w: &mut Writer, s: &[u8], from: usize)
    requires { from ≤ length s.now }
    ensures { Puts w.old (flat (put_chunks (ahead 6 (records (drop from s.now))) [])) w.new }
{
    let mut place = from;
    loop {
        match script::record_at(s, place) {
            Found::Record { kind, start, len } => {
                if kind != script::CHUNK {
                    w.put_u32_le(0);
                    return;
                }
                let next = start + len;
                token::put_chunk(w, &s[start..next]);
                place = next;
            }
            Found::Cut | Found::End => {
                w.put_u32_le(0);
                return;
            }
        }
    }
}

// The beginning of a set: COLMETADATA, columns, classification. This writer and those below answer the place where the walk
// over the records goes on.
fn put_set(w: &mut Writer, s: &[u8], classification: &[u8], next: usize) -> usize
    requires { next ≤ length s.now }
    ensures puts { Puts w.old (bytes_in (begin_pieces classification.now (records (drop next s.now)))) w.new }
    ensures goes { GoesOn s.now next result }
{
    let run = emission::run_at(s, next, script::COLUMN);
    token::put_colmetadata(w, run.count);
    put_columns(w, s, next);
    w.put_slice(classification);
    run.next
}

// A cell in chunks: their total, the chunks, a zero length.
fn put_chunked(w: &mut Writer, s: &[u8], next: usize) -> usize
    requires { next ≤ length s.now }
    ensures puts { Puts w.old (token_bytes (cell (long (ahead 6 (records (drop next s.now)))))) w.new }
    ensures goes { GoesOn s.now next result }
{
    let run = emission::run_at(s, next, script::CHUNK);
    w.put_u64_le(run.bytes as u64);
    put_chunks(w, s, next);
    run.next
}

// A cell of a value, with its chunks where it has them.
fn put_value(w: &mut Writer, s: &[u8], value: ColumnValue, p: &[u8], next: usize) -> usize
    requires { next ≤ length s.now }
    ensures puts { Puts w.old (token_bytes (cell (value_cell value (drop 1 p.now) (ahead 6 (records (drop next s.now)))))) w.new }
    ensures goes { GoesOn s.now next result }
{
    match value {
        ColumnValue::TinyInt => {
            token::put_tinyint(w, wire::get_u8(p, 1));
            next
        }
        ColumnValue::SmallInt => {
            token::put_smallint(w, wire::get_u16_le(p, 1));
            next
        }
        ColumnValue::Int => {
            token::put_int(w, wire::get_u32_le(p, 1));
            next
        }
        ColumnValue::BigInt => {
            token::put_bigint(w, wire::get_u64_le(p, 1));
            next
        }
        ColumnValue::NVarChar => {
            token::put_nvarchar(w, script::rest_after(p, 1));
            next
        }
        ColumnValue::NVarCharMax | ColumnValue::VarCharMax | ColumnValue::VarBinaryMax => {
            put_chunked(w, s, next)
        }
        ColumnValue::NVarCharMaxNull => {
            token::put_plp_null(w);
            next
        }
        ColumnValue::Null => {
            token::put_null(w);
            next
        }
    }
}

// A cell.
fn put_cell(w: &mut Writer, s: &[u8], p: &[u8], next: usize) -> usize
    requires { (w.old.at ≤ length w.old.buf.now) × (next ≤ length s.now) }
    ensures puts { Puts w.old (bytes_in (cell_pieces p.now (ahead 6 (records (drop next s.now))))) w.new }
    ensures goes { GoesOn s.now next result }
{
    match token::column_value_of(wire::get_u8(p, 0)) {
        Some(value) => put_value(w, s, value, p, next),
        None => next,
    }
}

// What a record after the first set's emits; rows are those of the set so far.
fn put_turn(w: &mut Writer, s: &[u8], kind: u16, p: &[u8], next: usize, rows: u64) -> usize
    requires { (w.old.at ≤ length w.old.buf.now) × (next ≤ length s.now) }
    ensures puts { Puts w.old (bytes_in (pieces_of rows kind p.now (records (drop next s.now)))) w.new }
    ensures goes { GoesOn s.now next result }
{
    match kind {
        script::SET => {
            token::put_done(w, MORE, rows);
            put_set(w, s, p, next)
        }
        script::INFO | script::TRAILING_INFO => {
            put_info(w, p);
            next
        }
        script::ROW => {
            token::put_row(w);
            next
        }
        script::CELL => put_cell(w, s, p, next),
        _ => next,
    }
}

// The rows of a set after a record.
#[tactic(auto, unfolding(emission::specs::Walk::rows_after))]
fn rows_after(rows: u64, kind: u16) -> u64
    requires { rows + 1 < 2 ^ 64 }
    ensures { (result ≡ rows_after rows kind) × (result ≤ rows + 1) }
{
    match kind {
        script::SET => 0,
        script::ROW => rows + 1,
        _ => rows,
    }
}

// What the records from a place on emit, and the last set's DONE.
fn put_records(w: &mut Writer, s: &[u8], from: usize)
    requires { (w.old.at ≤ length w.old.buf.now) × (from ≤ length s.now) }
    ensures { Puts w.old (bytes_in (emit_from 0 (records (drop from s.now)))) w.new }
{
    let mut place = from;
    let mut rows: u64 = 0;
    loop {
        match script::record_at(s, place) {
            Found::Record { kind, start, len } => {
                let next = start + len;
                place = put_turn(w, s, kind, &s[start..next], next, rows);
                rows = rows_after(rows, kind);
            }
            Found::Cut | Found::End => {
                token::put_done(w, LAST, rows);
                return;
            }
        }
    }
}

// The error of the first set, where it has one, and its DONE.
fn put_lead(w: &mut Writer, s: &[u8], error: Option<Part>, status: u16)
    requires { w.old.at ≤ length w.old.buf.now }
    ensures { Puts w.old (bytes_in (lead_pieces status (error_found s.now error))) w.new }
{
    match error {
        Some(part) => put_error(w, wire::part_of(s, part), status),
        None => {}
    }
}

// The sets of a script whose first set has the classification and goes on at next.
fn put_sets(w: &mut Writer, s: &[u8], classification: &[u8], next: usize)
    requires { (w.old.at ≤ length w.old.buf.now) × (next ≤ length s.now) }
    ensures { Puts w.old (bytes_in (sets_of classification.now (records (drop next s.now)))) w.new }
{
    match emission::error_in(s, next, script::TERMINAL_ERROR) {
        Some(part) => put_error(w, wire::part_of(s, part), TERMINAL),
        None => {
            let error = emission::error_in(s, next, script::LEADING_ERROR);
            put_lead(w, s, error, LEADING);
            let from = put_set(w, s, classification, next);
            put_records(w, s, from);
        }
    }
}

// What a script emits.
fn put_pieces(w: &mut Writer, s: &[u8])
    requires { w.old.at ≤ length w.old.buf.now }
    ensures { Puts w.old (bytes_in (walked s.now)) w.new }
{
    match script::record_at(s, 0) {
        Found::Record {
            kind: _,
            start,
            len,
        } => {
            let next = start + len;
            put_sets(w, s, &s[start..next], next);
        }
        Found::Cut | Found::End => {}
    }
}

// The reply of a script, as one packet at the buffer's front: `build_query_results` of the Rust.
pub fn build_query_results(script: &[u8], buf: &mut [u8]) -> Result<usize, Refusal>
    ensures value { numbered result ≡ built_of script.now (length buf.old) }
    ensures buf_after { buf.new ≡ buffer_of script.now buf.old }
{
    let length = emission::reply_length(script)?;
    if buf.len() < length {
        return Err(Refusal::BufferTooShort);
    }
    let mut w = Writer { buf, at: 0 };
    packet::write_reply_header(&mut w, length as u16);
    put_pieces(&mut w, script);
    Ok(length)
}

// The narrowings of `build_query_results`: a script that holds no more than each of them takes is what they send.
pub fn build_query_result(script: &[u8], buf: &mut [u8]) -> Result<usize, Refusal>
    ensures value { numbered result ≡ built_of script.now (length buf.old) }
    ensures buf_after { buf.new ≡ buffer_of script.now buf.old }
{
    build_query_results(script, buf)
}

pub fn build_query_result_with_trailing_info(
    script: &[u8],
    buf: &mut [u8],
) -> Result<usize, Refusal>
    ensures value { numbered result ≡ built_of script.now (length buf.old) }
    ensures buf_after { buf.new ≡ buffer_of script.now buf.old }
{
    build_query_results(script, buf)
}

pub fn build_query_result_with_extras(script: &[u8], buf: &mut [u8]) -> Result<usize, Refusal>
    ensures value { numbered result ≡ built_of script.now (length buf.old) }
    ensures buf_after { buf.new ≡ buffer_of script.now buf.old }
{
    build_query_results(script, buf)
}

// The payload that a script emits, at a place of the buffer.
fn put_payload(script: &[u8], at: usize, buf: &mut [u8])
    requires { at ≤ length buf.old }
    ensures { buf.new ≡ overwrite buf.old at (bytes_in (walked script.now)) }
{
    let mut w = Writer { buf, at };
    put_pieces(&mut w, script);
}

// The payload of n bytes that a script emits, in packets of a size: it is written so that it ends where the packets will end,
// and is cut where it stands.
fn put_in_packets(script: &[u8], size: u16, n: u16, buf: &mut [u8]) -> Result<usize, Refusal>
    requires { (9 ≤ size) × (n ≡ length (bytes_in (walked script.now))) }
    ensures value { numbered result ≡ fitted (Ok (length (packets_of size (bytes_in (walked script.now))))) (length buf.old) }
    ensures buf_after { buf.new ≡ leaves (fitted (Ok (length (packets_of size (bytes_in (walked script.now))))) (length buf.old)) (packets_of size (bytes_in (walked script.now))) buf.old }
{
    let total = packet::packets_length(size, n);
    if buf.len() < total {
        return Err(Refusal::BufferTooShort);
    }
    put_payload(script, total - n as usize, buf);
    // The packets have room, so that it is cut.
    packet::cut_in_place(buf, size, n);
    Ok(total)
}

// The reply of a script, in packets of a size at the buffer's front.
pub fn build_query_results_in_packets(
    script: &[u8],
    size: usize,
    buf: &mut [u8],
) -> Result<usize, Refusal>
    ensures value { numbered result ≡ built_in_packets size script.now (length buf.old) }
    ensures buf_after { buf.new ≡ buffer_in_packets size script.now buf.old }
{
    if !packet::is_packet_size(size) {
        return Err(Refusal::PacketSize);
    }
    let length = emission::reply_length(script)?;
    put_in_packets(script, size as u16, (length - 8) as u16, buf)
}

// The room for a script's reply as one packet, exactly its length: what its builder answers where enough is lent.
#[tactic(auto, unfolding(crate::specs::Built::room_of, emission::specs::Length::measure_of))]
pub fn room_estimate(script: &[u8]) -> Result<usize, Refusal>
    ensures { numbered result ≡ room_of script.now }
{
    emission::reply_length(script)
}

// The room for it in packets of a size, exactly the sum of all packets with their headers.
pub fn room_in_packets(script: &[u8], size: usize) -> Result<usize, Refusal>
    ensures { numbered result ≡ room_at size script.now }
{
    if !packet::is_packet_size(size) {
        return Err(Refusal::PacketSize);
    }
    let length = emission::reply_length(script)?;
    Ok(packet::packets_length(size as u16, (length - 8) as u16))
}
