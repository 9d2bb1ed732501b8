// The tokens of a reply, read at a place (MS-TDS 2.2.7.4 COLMETADATA, 2.2.7.6 DONE, 2.2.7.10 ERROR, 2.2.7.13 INFO,
// 2.2.7.20 ROW). They know nothing of headers and positions.
ghost use Rattle.std.specs.Prelude.{◌≡◌, ◌&&◌, ◌-◌, ◌*◌, ◌≤◌, leb};
ghost use Rattle.refusals.specs.Refused.{numbered};
ghost use Rattle.wire.specs.Even.{even};
ghost use Rattle.payload.specs.Places.{whole, number_at};
ghost use Rattle.payload.specs.Frames.{source_from};
ghost use Rattle.payload.specs.Answers.{number_read, part_read, Below};
ghost use Rattle.reader.specs.ReadTokens.{column_at, metadata_at, row_at, done_at, text_at, texts_at, message_at, token_at};
ghost use Rattle.reader.specs.Code.{token_read, texts_read};

use crate::{MAX_COLUMNS, Token};
use cells::type_at;
use payload::frames::Frame;
use payload::{NumberAt, PartAt, part_at, u8_at, u16_at, u32_at, u64_at};
use refusals::Refusal;
use wire::Part;

// A token, with the place after it.
#[derive(Clone, Copy)]
pub(crate) struct TokenAt {
    pub(crate) token: Token,
    pub(crate) next: usize,
}

// A column of COLMETADATA: user type, flags, type, and the name after its count of units.
pub(crate) fn column_at(lent: &[u8], frame: Frame, at: usize) -> Result<TokenAt, Refusal>
    ensures { numbered result ≡ token_read (column_at (source_from lent.now frame) at) }
{
    let user_type = u32_at(lent, frame, at)?;
    let flags = u16_at(lent, frame, user_type.next)?;
    let read = type_at(lent, frame, flags.next)?;
    let units = u8_at(lent, frame, read.next)?;
    let name = part_at(lent, frame, units.next, 2 * (units.value as usize))?;
    let info = read.info;
    Ok(TokenAt {
        token: Token::Column {
            user_type: user_type.value as u32,
            flags: flags.value as u16,
            code: info.code,
            limit: info.limit,
            collation: info.collation,
            name: name.part,
        },
        next: name.next,
    })
}

// A token by its first byte, in a set of some number of columns.
pub(crate) fn token_at(
    lent: &[u8],
    frame: Frame,
    at: usize,
    columns: usize,
) -> Result<TokenAt, Refusal>
    ensures { numbered result ≡ token_read (token_at columns (source_from lent.now frame) at) }
{
    let first = u8_at(lent, frame, at)?;
    let next = first.next;
    let code = first.value as u8;
    match code {
        token::COLMETADATA => metadata_at(lent, frame, next),
        token::ROW => row_at(columns, next),
        token::DONE => done_at(lent, frame, next),
        token::ERROR | token::INFO => message_at(lent, frame, next, code),
        _ => Err(Refusal::UnknownToken),
    }
}

// COLMETADATA after its first byte: the count of columns.
fn metadata_at(lent: &[u8], frame: Frame, at: usize) -> Result<TokenAt, Refusal>
    ensures { numbered result ≡ token_read (metadata_at (source_from lent.now frame) at) }
{
    let count = u16_at(lent, frame, at)?;
    if (MAX_COLUMNS as u64) < count.value {
        return Err(Refusal::TooManyColumns);
    }
    Ok(TokenAt {
        token: Token::ColMetadata(count.value as u16),
        next: count.next,
    })
}

// ROW after its first byte, in a set of some number of columns.
fn row_at(columns: usize, at: usize) -> Result<TokenAt, Refusal>
    ensures { numbered result ≡ token_read (row_at columns at) }
{
    if columns == 0 {
        return Err(Refusal::RowWithoutColumns);
    }
    Ok(TokenAt {
        token: Token::Row,
        next: at,
    })
}

// DONE after its first byte: status, command, row count.
fn done_at(lent: &[u8], frame: Frame, at: usize) -> Result<TokenAt, Refusal>
    ensures { numbered result ≡ token_read (done_at (source_from lent.now frame) at) }
{
    let status = u16_at(lent, frame, at)?;
    let command = u16_at(lent, frame, status.next)?;
    let count = u64_at(lent, frame, command.next)?;
    Ok(TokenAt {
        token: Token::Done {
            status: status.value as u16,
            command: command.value as u16,
            count: count.value,
        },
        next: count.next,
    })
}

// The bytes of a message's length that are not of its texts.
const MESSAGE_FIXED: usize = 14;

// ERROR or INFO after its first byte: length, number, state, class, the texts, line.
fn message_at(lent: &[u8], frame: Frame, at: usize, kind: u8) -> Result<TokenAt, Refusal>
    ensures { numbered result ≡ token_read (message_at kind (source_from lent.now frame) at) }
{
    let size = u16_at(lent, frame, at)?;
    let length = size.value as usize;
    if !is_message_length(length) {
        return Err(Refusal::InnerWrong);
    }
    let number = u32_at(lent, frame, size.next)?;
    let state = u8_at(lent, frame, number.next)?;
    let class = u8_at(lent, frame, state.next)?;
    let read = texts_at(lent, frame, class.next, length - MESSAGE_FIXED)?;
    let texts = read.texts;
    Ok(TokenAt {
        token: Token::Message {
            kind,
            number: number.value as u32,
            state: state.value as u8,
            class: class.value as u8,
            text: texts.text,
            server: texts.server,
            procedure: texts.procedure,
            line: texts.line,
        },
        next: read.next,
    })
}

fn is_message_length(n: usize) -> bool
    ensures { result ≡ (leb 14 n && even n) }
{
    (MESSAGE_FIXED <= n) & (n % 2 == 0)
}

// What follows a message's class.
#[derive(Clone, Copy)]
struct Texts {
    text: Part,
    server: Part,
    procedure: Part,
    line: u32,
}

// The same, with the place after it.
#[derive(Clone, Copy)]
struct TextsAt {
    texts: Texts,
    next: usize,
}

// The most bytes of two names, and of one: a name has at most 255 units of two bytes.
const TWO_NAMES: usize = 1020;

const ONE_NAME: usize = 510;

// The texts of a message, which have room bytes together, and the line.
fn texts_at(lent: &[u8], frame: Frame, at: usize, room: usize) -> Result<TextsAt, Refusal>
    ensures { numbered result ≡ texts_read (texts_at room (source_from lent.now frame) at) }
{
    let message = text_at(lent, frame, at, 2, room, TWO_NAMES)?;
    let text = message.part;
    let room = room.saturating_sub(text.len);
    let name = text_at(lent, frame, message.next, 1, room, ONE_NAME)?;
    let server = name.part;
    let last = text_at(
        lent,
        frame,
        name.next,
        1,
        room.saturating_sub(server.len),
        0,
    )?;
    let line = u32_at(lent, frame, last.next)?;
    Ok(TextsAt {
        texts: Texts {
            text,
            server,
            procedure: last.part,
            line: line.value as u32,
        },
        next: line.next,
    })
}

// A text after its count of units in k bytes, where room bytes are left for it and for texts that have at most most bytes.
fn text_at(
    lent: &[u8],
    frame: Frame,
    at: usize,
    k: usize,
    room: usize,
    most: usize,
) -> Result<PartAt, Refusal>
    requires { (1 ≤ k) × (k ≤ 2) }
    ensures { numbered result ≡ part_read (text_at k room most (source_from lent.now frame) at) }
{
    let units = units_at(lent, frame, at, k)?;
    let len = 2 * (units.value as usize);
    if !leaves(len, room, most) {
        return Err(Refusal::InnerWrong);
    }
    part_at(lent, frame, units.next, len)
}

// A count of units in one byte or in two.
fn units_at(lent: &[u8], frame: Frame, at: usize, k: usize) -> Result<NumberAt, Refusal>
    requires { (1 ≤ k) × (k ≤ 2) }
    ensures { (numbered result ≡ number_read (number_at k (source_from lent.now frame) at whole)) × Below 2 result }
{
    if k == 1 {
        u8_at(lent, frame, at)
    } else {
        u16_at(lent, frame, at)
    }
}

// Whether a text of len bytes fits the room for it, and leaves at most most of it.
fn leaves(len: usize, room: usize, most: usize) -> bool
    ensures { result ≡ (leb len room && leb (room - len) most) }
{
    (len <= room) & (room.saturating_sub(len) <= most)
}
