// The station unit's calls for C and Rust, on numbers and lent slices (include/station.h declares them).
// Every answer is an i64: 0 or more as said, or -N for refusal N with nothing written. `out` is lent for numbers: the
// first slots are written, and fewer slots than needed is -20, after all other refusals.
// A call's contract is its outcome (specs/) as answer and as slots; it ends by `refused` or by `answered`.
#![tactic(auto)]

mod build;
mod labels;
mod logins;
mod packets;
mod procedures;
mod requests;
mod results;
mod slots;
mod steps;

ghost use Rattle.std.specs.Prelude.{◌≡◌};
ghost use Rattle.station.specs.Answer.{number_of, answer_of, slots_of};
ghost use Rattle.station.specs.Calls.{header_outcome, header_call, written_header, write_header_call, whitespace_call, text_outcome, text_call};

use packet::{PACKET_HEADER_SIZE, PacketHeader, PacketStatus, PacketType};
use refusals::Refusal;
use slots::{answered, flag, refused};
use wire::Writer;

// 0: type, status, length, spid, number and window of a packet header.
#[unsafe(no_mangle)]
pub extern "C" fn station_parse_header(bytes: &[u8], out: &mut [u64]) -> i64
    ensures value { result ≡ answer_of (header_call bytes.now) out.old }
    ensures out_after { out.new ≡ slots_of (header_call bytes.now) out.old }
{
    match PacketHeader::parse(bytes) {
        Ok(header) => tell_header(header, out),
        Err(refusal) => refused(refusal.number()),
    }
}

fn tell_header(header: PacketHeader, out: &mut [u64]) -> i64
    ensures value { result ≡ answer_of (header_outcome (Ok header)) out.old }
    ensures out_after { out.new ≡ slots_of (header_outcome (Ok header)) out.old }
{
    let packet_type = header.packet_type;
    let values = [
        packet_type.byte() as u64,
        header.status.0 as u64,
        header.length as u64,
        header.spid as u64,
        header.packet_id as u64,
        header.window as u64,
    ];
    answered(out, 0, &values)
}

// 8: a packet header at the front of buf.
#[unsafe(no_mangle)]
pub extern "C" fn station_write_header(
    packet_type: u8,
    status: u8,
    length: u16,
    spid: u16,
    number: u8,
    window: u8,
    buf: &mut [u8],
) -> i64
    ensures value { result ≡ answer_of (write_header_call packet_type status length spid number window) buf.old }
    ensures buf_after { buf.new ≡ slots_of (write_header_call packet_type status length spid number window) buf.old }
{
    match PacketType::try_from(packet_type) {
        Ok(known) => {
            let header = PacketHeader {
                packet_type: known,
                status: PacketStatus(status),
                length,
                spid,
                packet_id: number,
                window,
            };
            write_header(header, buf)
        }
        Err(refusal) => refused(refusal.number()),
    }
}

fn write_header(header: PacketHeader, buf: &mut [u8]) -> i64
    ensures value { result ≡ answer_of (written_header header) buf.old }
    ensures buf_after { buf.new ≡ slots_of (written_header header) buf.old }
{
    if buf.len() < PACKET_HEADER_SIZE {
        return refused(Refusal::BufferTooShort.number());
    }
    let mut w = Writer { buf, at: 0 };
    header.write(&mut w);
    w.at as i64
}

// 1 where trimming removes the unit, else 0.
#[unsafe(no_mangle)]
pub extern "C" fn station_is_whitespace(unit: u16) -> i64
    ensures { result ≡ number_of (whitespace_call unit) }
{
    if text::is_whitespace(unit) { 1 } else { 0 }
}

// 0: a text's units, characters and bytes as UTF-8, and 1 where a surrogate pair stands in it, else 0.
#[unsafe(no_mangle)]
pub extern "C" fn station_text(text: &[u8], out: &mut [u64]) -> i64
    ensures value { result ≡ answer_of (text_call text.now) out.old }
    ensures out_after { out.new ≡ slots_of (text_call text.now) out.old }
{
    match text::text_fault(text) {
        Ok(()) => tell_text(text, out),
        Err(refusal) => refused(refusal.number()),
    }
}

fn tell_text(text: &[u8], out: &mut [u64]) -> i64
    ensures value { result ≡ answer_of (text_outcome text.now) out.old }
    ensures out_after { out.new ≡ slots_of (text_outcome text.now) out.old }
{
    let values = [
        text::units(text) as u64,
        text::characters(text) as u64,
        text::utf8_length(text) as u64,
        flag(text::has_pair(text)),
    ];
    answered(out, 0, &values)
}
