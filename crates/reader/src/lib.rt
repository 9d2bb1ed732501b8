// The reply reader (document 01, 'The reply reader'; document 02, 2026-02): a position by value, and a step over packets that
// hands back a token, the end or a refusal with the next position.
#![tactic(auto)]

mod token_reader;

ghost use Rattle.std.specs.Prelude.{◌≡◌, true, ◌≤◌, length};
ghost use Rattle.refusals.specs.Refused.{numbered};
ghost use Rattle.packet.specs.Status.{has_bit};
ghost use Rattle.payload.specs.Frames.{source_from, frame_at};
ghost use Rattle.cells.specs.Cells.{cell_at};
ghost use Rattle.reader.specs.Positions.{fresh_position, held};
ghost use Rattle.reader.specs.Reader.{ending, step_of};
ghost use Rattle.reader.specs.Code.{token_read};
ghost use Rattle.reader.specs.Spots.{holding, held_in, spot_after, stands_by, next_by, got_in, got_end, got_of, cell_token};

use cells::Value;
use payload::frames::{self, Frame};
use refusals::Refusal;
use token_reader::TokenAt;
use wire::Part;

// The most columns that a position holds.
pub const MAX_COLUMNS: usize = 128;

// The status bit of a DONE that a set follows.
const MORE: u16 = 0x0001;

// A token of a reply; each column after COLMETADATA and each cell after ROW is one of its own. ERROR and INFO are messages
// by their code.
#[derive(Clone, Copy)]
pub enum Token {
    ColMetadata(u16),
    Column {
        user_type: u32,
        flags: u16,
        code: u8,
        limit: u16,
        collation: Part,
        name: Part,
    },
    Row,
    Cell(Value),
    Done {
        status: u16,
        command: u16,
        count: u64,
    },
    Message {
        kind: u8,
        number: u32,
        state: u8,
        class: u8,
        text: Part,
        server: Part,
        procedure: Part,
        line: u32,
    },
}

// Where a reader stands: the packet, counted from 1, and the place in it of the next byte, counted from the packet's first;
// how many columns the current set has, with the type and the length of each that was read; how many columns and how many cells
// are still to be read; whether the last DONE was read.
#[derive(Clone, Copy)]
pub struct Position {
    pub packet: usize,
    pub place: usize,
    pub count: usize,
    pub types: [u8; 128],
    pub limits: [u16; 128],
    pub columns_left: usize,
    pub cells_left: usize,
    pub over: bool,
}

// A step: a token, the end or a refusal, and the next position.
#[derive(Clone, Copy)]
pub struct Step {
    pub answer: Result<Option<Token>, Refusal>,
    pub next: Position,
}

impl Position {
    // Just past the first packet's header, with no column types held.
    pub fn fresh() -> Self
        ensures { result ≡ fresh_position }
    {
        Position {
            packet: 1,
            place: packet::PACKET_HEADER_SIZE,
            count: 0,
            types: [0; 128],
            limits: [0; 128],
            columns_left: 0,
            cells_left: 0,
            over: false,
        }
    }

    // The next token, the end, or a refusal. A refusal and the end hand back the same position.
    // The types are copied once, to locals, and lent from there: a position that is handed on by value is copied each time.
    pub fn step(self, packets: &[u8]) -> Step
        ensures answer { numbered result.answer ≡ (step_of packets.now self).answer }
        ensures next { result.next ≡ (step_of packets.now self).next }
    {
        let at = Spot {
            packet: self.packet,
            place: self.place,
            count: self.count,
            columns_left: self.columns_left,
            cells_left: self.cells_left,
            over: self.over,
        };
        let mut types = self.types;
        let mut limits = self.limits;
        match got_at(packets, at, held_in(at, &types, &limits)) {
            Err(refusal) => Step {
                answer: Err(refusal),
                next: self,
            },
            Ok(None) => Step {
                answer: Ok(None),
                next: self,
            },
            Ok(Some(got)) => {
                let next = spot_after(at, got.token, got.packet, got.place);
                if let Token::Column { code, limit, .. } = got.token {
                    let i = at.count.saturating_sub(at.columns_left);
                    if i < MAX_COLUMNS {
                        types[i] = code;
                        limits[i] = limit;
                    }
                }
                Step {
                    answer: Ok(Some(got.token)),
                    next: Position {
                        packet: next.packet,
                        place: next.place,
                        count: next.count,
                        types,
                        limits,
                        columns_left: next.columns_left,
                        cells_left: next.cells_left,
                        over: next.over,
                    },
                }
            },
        }
    }
}

// A position without the types that it holds.
#[derive(Clone, Copy)]
pub struct Spot {
    pub packet: usize,
    pub place: usize,
    pub count: usize,
    pub columns_left: usize,
    pub cells_left: usize,
    pub over: bool,
}

// What a step asks of the types that a position holds: whether all of them are column types, and the type and the length of
// the column whose cell is next, 0 where it has none.
#[derive(Clone, Copy)]
pub struct HeldTypes {
    pub sound: bool,
    pub code: u8,
    pub limit: u16,
}

// A token, with the packet and the place after it.
#[derive(Clone, Copy)]
pub struct Got {
    pub token: Token,
    pub packet: usize,
    pub place: usize,
}

// What a step comes to from a spot: a token, the end or a refusal. Whoever keeps the types in a form of its own asks for no
// `Position`, and copies none.
pub fn got_at(packets: &[u8], at: Spot, held: HeldTypes) -> Result<Option<Got>, Refusal>
    ensures { numbered result ≡ got_of packets.now at held }
{
    let here = frames::resolve(packets, at.packet, at.place)?;
    if !stands(at, held.sound) {
        return Err(Refusal::Cut);
    }
    if at.over {
        return end_at(packets, here.frame, here.place);
    }
    let read = next_at(packets, here.frame, here.place, at, held)?;
    Ok(Some(got_to(packets, here.frame, read.token, read.next)))
}

// A token after which the reader stands at a payload place: its packet is found from the frame that the token was read from.
fn got_to(packets: &[u8], frame: Frame, token: Token, next: usize) -> Got
    requires { next ≤ length packets.now }
    ensures { result ≡ got_in (frame_at packets.now frame next) token next }
{
    let here = frames::frame_at(packets, frame, next);
    Got {
        token,
        packet: here.number,
        place: packet::PACKET_HEADER_SIZE + next.saturating_sub(here.base),
    }
}

// After the last DONE, where the packets must end.
fn end_at(packets: &[u8], frame: Frame, place: usize) -> Result<Option<Got>, Refusal>
    ensures { numbered result ≡ got_end (ending (source_from packets.now frame) place) }
{
    match frames::reach(packets, frame, place, 1) {
        Ok(_) => Err(Refusal::InnerWrong),
        Err(Refusal::Cut) => Ok(None),
        Err(refusal) => Err(refusal),
    }
}

// Whether a step can go on from a spot, where the types held are sound. It cannot, and answers 24, where over 128 columns or a type
// that is none are held, and where it stands past its columns or cells.
fn stands(at: Spot, sound: bool) -> bool
    ensures { result ≡ stands_by at sound }
{
    if MAX_COLUMNS < at.count {
        return false;
    }
    if at.count < at.columns_left {
        return false;
    }
    if at.count < at.cells_left {
        return false;
    }
    sound
}

// What a step asks of the types that stand in two arrays.
fn held_in<'a>(at: Spot, types: &'a [u8; 128], limits: &'a [u16; 128]) -> HeldTypes
    requires { (length types.now ≡ 128) × (length limits.now ≡ 128) }
    ensures { result ≡ held_in (holding at types.now limits.now) }
{
    let sound = are_types(types, limits, at.count.saturating_sub(at.columns_left));
    let i = at.count.saturating_sub(at.cells_left);
    if i < MAX_COLUMNS {
        return HeldTypes {
            sound,
            code: types[i],
            limit: limits[i],
        };
    }
    HeldTypes {
        sound,
        code: 0,
        limit: 0,
    }
}

// Whether the first n types are column types. Over 128 are not held.
fn are_types<'a>(types: &'a [u8; 128], limits: &'a [u16; 128], n: usize) -> bool
    requires { length types.now ≡ 128 }
    ensures { result ≡ held n types.now limits.now }
{
    if MAX_COLUMNS < n {
        return false;
    }
    let mut all = true;
    for i in 0..n {
        all = cells::is_type(types[i], limits[i]) & all;
    }
    all
}

// The token at a payload place: a column or a cell that is to be read, else one by its first byte.
fn next_at(
    packets: &[u8],
    frame: Frame,
    place: usize,
    at: Spot,
    held: HeldTypes,
) -> Result<TokenAt, Refusal>
    ensures { numbered result ≡ token_read (next_by (source_from packets.now frame) place at held) }
{
    if 0 < at.columns_left {
        return token_reader::column_at(packets, frame, place);
    }
    if 0 < at.cells_left {
        return row_cell_at(packets, frame, place, held.code, held.limit);
    }
    token_reader::token_at(packets, frame, place, at.count)
}

// The next cell of the current row, of its column's type.
fn row_cell_at(
    packets: &[u8],
    frame: Frame,
    place: usize,
    code: u8,
    limit: u16,
) -> Result<TokenAt, Refusal>
    ensures { numbered result ≡ token_read (cell_token (cell_at code limit (source_from packets.now frame) place)) }
{
    let cell = cells::cell_at(packets, frame, place, code, limit)?;
    Ok(TokenAt {
        token: Token::Cell(cell.value),
        next: cell.next,
    })
}

// The spot after a token, in a packet and at a place of it: COLMETADATA begins a set and any DONE ends it, the last one ends
// the reply.
pub fn spot_after(at: Spot, token: Token, packet: usize, place: usize) -> Spot
    ensures { result ≡ spot_after at token packet place }
{
    let mut next = at;
    next.packet = packet;
    next.place = place;
    match token {
        Token::ColMetadata(n) => {
            next.count = n as usize;
            next.columns_left = n as usize;
        },
        Token::Column { .. } => {
            next.columns_left = at.columns_left.saturating_sub(1);
        },
        Token::Row => {
            next.cells_left = at.count;
        },
        Token::Cell(_) => {
            next.cells_left = at.cells_left.saturating_sub(1);
        },
        Token::Done { status, .. } => {
            next.count = 0;
            next.over = !has_more(status);
        },
        Token::Message { .. } => {},
    }
    next
}

// Whether a set follows the DONE of a status.
fn has_more(status: u16) -> bool
    ensures { result ≡ has_bit 0x01 status }
{
    status % 2 == MORE
}
