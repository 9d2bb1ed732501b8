// The packet header (MS-TDS 2.2.3.1): packet types, status, the header's eight bytes read and written, the wrapping of a
// reply in one packet, and its cutting into packets of an agreed size (document 02, 2026-02). Stands for `PacketType`,
// `PacketStatus`, `PacketHeader` and `wrap_in_packet` of the Rust.
#![tactic(auto)]

ghost use Rattle.std.specs.Prelude.{◌≡◌, cond, [], ◌∷◌, ◌+◌, ◌-◌, ◌≤◌, ◌<◌, min, length, take, drop, ok_or};
ghost use Rattle.refusals.specs.Refused.{numbered};
ghost use Rattle.refusals.specs.declared.Refusal.TheVariants.{UnknownPacketType};
ghost use Rattle.wire.specs.Over.{overwrite, PlaceAfter};
ghost use Rattle.wire.specs.Puts.{Puts};
ghost use Rattle.packet.specs.Types.{byte_of, type_of};
ghost use Rattle.packet.specs.Status.{has_bit};
ghost use Rattle.packet.specs.Header.{new_header, parsed_of, header_bytes};
ghost use Rattle.packet.specs.Reply.{reply_header};
ghost use Rattle.packet.specs.Cut.{part_header, part_bytes, cut_from, packets_of};
ghost use Rattle.packet.specs.Agreed.{is_packet_size, packet_count, packets_length, whole_packets, cut_answer, cut_buffer};
ghost use Rattle.packet.specs.Inner.{Stands};

use refusals::Refusal;
use wire::Writer;

pub const PACKET_HEADER_SIZE: usize = 8;

#[derive(Clone, Copy, Debug, PartialEq, Eq)]
pub enum PacketType {
    SqlBatch = 0x01,
    FedAuthToken = 0x08,
    PreLogin = 0x12,
    TabularResult = 0x04,
    Attention = 0x06,
    Login7 = 0x10,
    RpcRequest = 0x03,
    TransactionManager = 0x0E,
}

impl PacketType {
    // The byte that stands for a packet type.
    pub fn byte(self) -> u8
        ensures { result ≡ byte_of self }
    {
        self as u8
    }
}

impl TryFrom<u8> for PacketType {
    type Error = Refusal;

    ghost try_from_gives = { λ b r. r ≡ ok_or (type_of b) UnknownPacketType };

    // The packet type that a byte stands for.
    #[tactic(auto, unfolding(crate::specs::Types::type_of, crate::specs::Types::types, crate::specs::Types::type_in))]
    fn try_from(value: u8) -> Result<Self, Refusal> {
        match value {
            0x01 => Ok(PacketType::SqlBatch),
            0x08 => Ok(PacketType::FedAuthToken),
            0x12 => Ok(PacketType::PreLogin),
            0x04 => Ok(PacketType::TabularResult),
            0x06 => Ok(PacketType::Attention),
            0x10 => Ok(PacketType::Login7),
            0x03 => Ok(PacketType::RpcRequest),
            0x0E => Ok(PacketType::TransactionManager),
            _ => Err(Refusal::UnknownPacketType),
        }
    }
}

// The status byte, kept with all its bits, of which two are tested; functions without self make and test it (document 01's form).
#[derive(Clone, Copy, Debug, PartialEq, Eq)]
pub struct PacketStatus(pub u8);

impl PacketStatus {
    pub const END_OF_MESSAGE: u8 = 0x01;
    // Set with the end of message when a client withdraws a partly sent message.
    pub const IGNORE: u8 = 0x02;

    pub fn normal() -> Self
        ensures { result ≡ record { 0 = 0x00 } }
    {
        PacketStatus(0)
    }

    pub fn end_of_message() -> Self
        ensures { result ≡ record { 0 = 0x01 } }
    {
        PacketStatus(Self::END_OF_MESSAGE)
    }

    pub fn is_end_of_message(status: PacketStatus) -> bool
        ensures { result ≡ has_bit 0x01 status.0 }
    {
        status.0 & Self::END_OF_MESSAGE != 0
    }

    pub fn is_ignore(status: PacketStatus) -> bool
        ensures { result ≡ has_bit 0x02 status.0 }
    {
        status.0 & Self::IGNORE != 0
    }
}

#[derive(Clone, Copy, Debug, PartialEq, Eq)]
pub struct PacketHeader {
    pub packet_type: PacketType,
    pub status: PacketStatus,
    pub length: u16,
    pub spid: u16,
    pub packet_id: u8,
    pub window: u8,
}

impl PacketHeader {
    pub fn new(packet_type: PacketType, length: u16, packet_id: u8) -> Self
        ensures { result ≡ new_header packet_type length packet_id }
    {
        PacketHeader {
            packet_type,
            status: PacketStatus::end_of_message(),
            length,
            spid: 0,
            packet_id,
            window: 0,
        }
    }

    // The header at the front of some bytes.
    pub fn parse(buf: &[u8]) -> Result<PacketHeader, Refusal>
        ensures { numbered result ≡ parsed_of buf.now }
    {
        if buf.len() < PACKET_HEADER_SIZE {
            return Err(Refusal::HeaderTooShort);
        }
        Ok(PacketHeader {
            packet_type: PacketType::try_from(buf[0])?,
            status: PacketStatus(buf[1]),
            length: wire::get_u16(buf, 2),
            spid: wire::get_u16(buf, 4),
            packet_id: buf[6],
            window: buf[7],
        })
    }

    // The header's eight bytes.
    pub fn write(self, w: &mut Writer)
        ensures { Puts w.old (header_bytes self) w.new }
    {
        let packet_type = self.packet_type;
        w.put_u8(packet_type.byte());
        w.put_u8(self.status.0);
        w.put_u16(self.length);
        w.put_u16(self.spid);
        w.put_u8(self.packet_id);
        w.put_u8(self.window);
    }
}

// A reply's header: length is that of the whole packet.
pub fn write_reply_header(w: &mut Writer, length: u16)
    ensures { Puts w.old (reply_header length) w.new }
{
    PacketHeader::new(PacketType::TabularResult, length, 1).write(w);
}

// The least and the most bytes of a packet that can be agreed at login, header included.
pub const LEAST_PACKET_SIZE: usize = 512;

pub const MOST_PACKET_SIZE: usize = 32767;

// The number of a reply's first packet.
const FIRST_NUMBER: usize = 1;

// Whether a packet size can be agreed.
pub fn is_packet_size(size: usize) -> bool
    ensures { result ≡ is_packet_size size }
{
    (LEAST_PACKET_SIZE..=MOST_PACKET_SIZE).contains(&size)
}

// How many packets of a size a payload of n bytes becomes: none of an empty one, none of a size without room for payload.
pub fn packet_count(size: u16, n: u16) -> usize
    ensures { (result ≡ packet_count size n) × (result < 131072) }
{
    if size <= 8 {
        return 0;
    }
    let room = size as usize - PACKET_HEADER_SIZE;
    (n as usize + (room - 1)) / room
}

// How many bytes these packets have: the payload's, and eight for each header.
#[tactic(auto, unfolding(crate::specs::Agreed::packets_length))]
pub fn packets_length(size: u16, n: u16) -> usize
    ensures { result ≡ packets_length size n }
{
    n as usize + packet_count(size, n) * 8
}

// The status of a reply's packet: the end bit on the last only.
fn part_status(last: bool) -> PacketStatus
    ensures { result ≡ record { 0 = cond last 0x01 0x00 } }
{
    if last {
        PacketStatus::end_of_message()
    } else {
        PacketStatus::normal()
    }
}

// The header of a reply's packet that has len bytes of payload.
fn part_header(number: usize, last: bool, len: usize) -> PacketHeader
    requires { len < 65528 }
    ensures { result ≡ part_header number last len }
{
    PacketHeader {
        packet_type: PacketType::TabularResult,
        status: part_status(last),
        length: (8 + len) as u16,
        spid: 0,
        packet_id: (number % 256) as u8,
        window: 0,
    }
}

// The bytes of a block, which are moved at once.
const BLOCK: usize = 32;

// A block of a buffer moved down in it: all of it is read before a byte is written.
fn move_block(buf: &mut [u8], to: usize, from: usize)
    requires { (to ≤ from) × (from + 32 ≤ length buf.old) }
    ensures { buf.new ≡ overwrite buf.old to (take 32 (drop from buf.old)) }
{
    let mut block = [0u8; BLOCK];
    block.copy_from_slice(&buf[from..from + BLOCK]);
    buf[to..to + BLOCK].copy_from_slice(&block);
}

// Bytes of a buffer moved down in it, by blocks and the rest one by one. The library's `copy_within` would be a call of `memmove`,
// which nothing else here needs.
fn move_bytes(buf: &mut [u8], to: usize, from: usize, len: usize)
    requires { (to ≤ from) × (from + len ≤ length buf.old) }
    ensures { buf.new ≡ overwrite buf.old to (take len (drop from buf.old)) }
{
    let blocks = len / BLOCK;
    for n in 0..blocks {
        move_block(buf, to + n * BLOCK, from + n * BLOCK);
    }
    for i in blocks * BLOCK..len {
        buf[to + i] = buf[from + i];
    }
}

// Bytes that stand further on in the writer's buffer, moved down to its place; those that stand where they belong are left.
fn move_down(w: &mut Writer, from: usize, len: usize)
    requires { (w.old.at ≤ from) × (from + len ≤ length w.old.buf.now) }
    ensures { Puts w.old (take len (drop from w.old.buf.now)) w.new }
{
    if w.at != from {
        move_bytes(w.buf, w.at, from, len);
    }
    w.at += len;
}

// A packet whose payload stands further on in the writer's buffer.
fn move_part(w: &mut Writer, number: usize, last: bool, from: usize, len: usize)
    requires { (len < 65528) × (w.old.at + 8 ≤ from) × (from + len ≤ length w.old.buf.now) }
    ensures { Puts w.old (part_bytes number last (take len (drop from w.old.buf.now))) w.new }
{
    part_header(number, last, len).write(w);
    move_down(w, from, len);
}

// The packets of the payload that stands in the writer's buffer from a place up to total, where the packets end too.
fn move_parts(w: &mut Writer, room: usize, from: usize, total: usize)
    requires { (w.old.at ≡ 0) × (room < 65528) × Stands room 0 from total (length w.old.buf.now) }
    ensures { Puts w.old (cut_from (total - from) 1 room (take (total - from) (drop from w.old.buf.now))) w.new }
{
    let mut place = from;
    let mut number = FIRST_NUMBER;
    while place < total {
        let left = total - place;
        let len = left.min(room);
        move_part(w, number, left <= room, place, len);
        place += len;
        number += 1;
    }
}

// A payload of n bytes cut where it stands, into packets at the buffer's front: it begins after eight bytes for each of them, so
// that it ends where they do. The answer is the packets' length; where they have no room, nothing is cut.
pub fn cut_in_place(buf: &mut [u8], size: u16, n: u16) -> Option<usize>
    ensures value { result ≡ cut_answer size n (length buf.old) }
    ensures buf_after { buf.new ≡ cut_buffer size n buf.old }
{
    if size <= 8 {
        return None;
    }
    let total = packets_length(size, n);
    if buf.len() < total {
        return None;
    }
    let room = size as usize - 8;
    let from = total - n as usize;
    let mut w = Writer { buf, at: 0 };
    move_parts(&mut w, room, from, total);
    Some(w.at)
}

// A packet with its payload.
fn put_part(w: &mut Writer, number: usize, last: bool, part: &[u8])
    requires { length part.now < 65528 }
    ensures { Puts w.old (part_bytes number last part.now) w.new }
{
    part_header(number, last, part.len()).write(w);
    w.put_slice(part);
}

// The packets of a payload, cut into a buffer; of a size without room for payload, none.
pub fn put_packets(buf: &mut [u8], size: u16, payload: &[u8]) -> usize
    ensures buf_after { buf.new ≡ overwrite buf.old 0 (whole_packets size payload.now) }
    ensures place_after { PlaceAfter buf.old 0 (whole_packets size payload.now) result }
{
    if size <= 8 {
        return 0;
    }
    let room = size as usize - PACKET_HEADER_SIZE;
    let mut w = Writer { buf, at: 0 };
    put_parts(&mut w, room, payload);
    w.at
}

// The packets of a payload that have at most room bytes of it each.
fn put_parts(w: &mut Writer, room: usize, payload: &[u8])
    requires { (w.old.at ≤ length w.old.buf.now) × (1 ≤ room) × (room < 65528) }
    ensures { Puts w.old (packets_of (8 + room) payload.now) w.new }
{
    let mut left = payload.len();
    for (i, part) in payload.chunks(room).enumerate() {
        left -= part.len();
        put_part(w, FIRST_NUMBER + i, left == 0, part);
    }
}
