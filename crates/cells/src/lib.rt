// Column types and cells, read at a place (MS-TDS 2.2.5.4.2 and 2.2.5.4.3, 2.2.5.6 TYPE_INFO, 2.2.5.2.3 PLP_BODY). They
// know nothing of headers and positions.
#![tactic(auto)]

ghost use Rattle.std.specs.Prelude.{◌≡◌, true, not, ◌&&◌, ◌||◌, suc, ◌+◌, ◌<◌, ◌≤◌, ◌^◌, leb, length};
ghost use Rattle.refusals.specs.Refused.{numbered};
ghost use Rattle.wire.specs.Even.{even};
ghost use Rattle.token.specs.Types.{length_width};
ghost use Rattle.token.specs.Tokens.{signed};
ghost use Rattle.payload.specs.Places.{whole, number_at};
ghost use Rattle.payload.specs.Frames.{source_from};
ghost use Rattle.payload.specs.Answers.{number_read, Below};
ghost use Rattle.cells.specs.Cells.{is_code, is_type, type_at, integer_at, bounded_at, is_chunk, is_last, chunk_at, chunks_at, max_at, cell_at};
ghost use Rattle.cells.specs.Answers.{type_read, cell_read, chunks_read};
ghost use Rattle.cells.specs.Code.{chunk_read};

use payload::frames::{Frame, frame_at};
use payload::{NumberAt, part_at, u8_at, u16_at, u32_at, u64_at};
use refusals::Refusal;
use wire::Part;

// A cell's value, by case. A Max part runs from the first chunk length through the zero one.
#[derive(Clone, Copy)]
pub enum Value {
    Number(i64),
    Part(Part),
    Max(Part),
    Null,
}

// A column's type: its code, its length or most bytes, and its collation, which is empty where the type has none.
#[derive(Clone, Copy)]
pub struct TypeInfo {
    pub code: u8,
    pub limit: u16,
    pub collation: Part,
}

// The codes of column types, as MS-TDS numbers them, and the length of a Max type.
const INTN: u8 = 0x26;

const NVARCHAR: u8 = 0xE7;

const BIGVARCHAR: u8 = 0xA7;

const BIGVARBINARY: u8 = 0xA5;

const MAX: u16 = 0xFFFF;

// The length of a bounded text that is null, and the totals of a Max value that is null or of unknown length.
const NULL_LENGTH: u64 = 0xFFFF;

pub const NULL_TOTAL: u64 = 0xFFFF_FFFF_FFFF_FFFF;

pub const UNKNOWN_TOTAL: u64 = 0xFFFF_FFFF_FFFF_FFFE;

// A column's type, with the place after it.
#[derive(Clone, Copy)]
pub struct TypeAt {
    pub info: TypeInfo,
    pub next: usize,
}

// TYPE_INFO: the code, the length, the collation.
pub fn type_at(lent: &[u8], frame: Frame, at: usize) -> Result<TypeAt, Refusal>
    ensures { numbered result ≡ type_read (type_at (source_from lent.now frame) at) }
{
    let code = u8_at(lent, frame, at)?;
    let byte = code.value as u8;
    if !is_code(byte) {
        return Err(Refusal::InnerWrong);
    }
    let limit = length_at(lent, frame, code.next, byte)?;
    let most = limit.value as u16;
    if !is_type(byte, most) {
        return Err(Refusal::InnerWrong);
    }
    let collation = part_at(lent, frame, limit.next, token::collation_size(byte))?;
    Ok(TypeAt {
        info: TypeInfo {
            code: byte,
            limit: most,
            collation: collation.part,
        },
        next: collation.next,
    })
}

#[tactic(auto, unfolding(crate::specs::Cells::is_code))]
fn is_code(code: u8) -> bool
    ensures { result ≡ is_code code }
{
    (code == INTN) | (code == NVARCHAR) | (code == BIGVARCHAR) | (code == BIGVARBINARY)
}

// Whether a column type has the code and the length.
pub fn is_type(code: u8, limit: u16) -> bool
    ensures { result ≡ is_type code limit }
{
    match code {
        INTN => (limit == 1) | (limit == 2) | (limit == 4) | (limit == 8),
        NVARCHAR => ((1 <= limit) & (limit <= 8000)) | (limit == MAX),
        BIGVARCHAR | BIGVARBINARY => limit == MAX,
        _ => false,
    }
}

// A type's length, which stands in one byte or in two.
fn length_at(lent: &[u8], frame: Frame, at: usize, code: u8) -> Result<NumberAt, Refusal>
    ensures { (numbered result ≡ number_read (number_at (length_width code) (source_from lent.now frame) at whole)) × Below 2 result }
{
    if token::length_width(code) == 1 {
        u8_at(lent, frame, at)
    } else {
        u16_at(lent, frame, at)
    }
}

// A cell's value, with the place after it.
#[derive(Clone, Copy)]
pub struct CellAt {
    pub value: Value,
    pub next: usize,
}

// A cell of a column of some code and length: 26 where there is no such type. The test stands in each branch, where it is
// cheapest.
pub fn cell_at(
    lent: &[u8],
    frame: Frame,
    at: usize,
    code: u8,
    limit: u16,
) -> Result<CellAt, Refusal>
    ensures { numbered result ≡ cell_read (cell_at code limit (source_from lent.now frame) at) }
{
    if code == INTN {
        if !is_type(INTN, limit) {
            return Err(Refusal::InnerWrong);
        }
        return integer_at(lent, frame, at, limit);
    }
    if limit == MAX {
        if !is_type(code, MAX) {
            return Err(Refusal::InnerWrong);
        }
        return max_at(lent, frame, at, code == NVARCHAR);
    }
    if !is_type(code, limit) {
        return Err(Refusal::InnerWrong);
    }
    bounded_at(lent, frame, at, limit)
}

// A cell of an integer column of some length: a length that is 0, which is null, or the column's, and the number.
fn integer_at(lent: &[u8], frame: Frame, at: usize, limit: u16) -> Result<CellAt, Refusal>
    requires { is_type 0x26 limit ≡ true }
    ensures { numbered result ≡ cell_read (integer_at limit (source_from lent.now frame) at) }
{
    let size = u8_at(lent, frame, at)?;
    if size.value == 0 {
        return Ok(CellAt {
            value: Value::Null,
            next: size.next,
        });
    }
    if size.value != limit as u64 {
        return Err(Refusal::InnerWrong);
    }
    let width = size.value as usize;
    let number = integer_number_at(lent, frame, size.next, width)?;
    Ok(CellAt {
        value: Value::Number(signed_number(width, number.value)),
        next: number.next,
    })
}

// The number of an integer column's width at a place.
fn integer_number_at(
    lent: &[u8],
    frame: Frame,
    at: usize,
    width: usize,
) -> Result<NumberAt, Refusal>
    requires { is_type 0x26 width ≡ true }
    ensures { (numbered result ≡ number_read (number_at width (source_from lent.now frame) at whole)) × Below width result }
{
    match width {
        1 => u8_at(lent, frame, at),
        2 => u16_at(lent, frame, at),
        4 => u32_at(lent, frame, at),
        _ => u64_at(lent, frame, at),
    }
}

// The number that some bytes stand for: one byte without a sign, more with it.
fn signed_number(width: usize, n: u64) -> i64
    requires { (is_type 0x26 width ≡ true) × (n < 256 ^ width) }
    ensures { result ≡ signed width n }
{
    match width {
        1 => n as i64,
        2 => (n as u16).cast_signed() as i64,
        4 => (n as u32).cast_signed() as i64,
        _ => n.cast_signed(),
    }
}

// A cell of a bounded text column of some length: null, or a text of an even length within it.
fn bounded_at(lent: &[u8], frame: Frame, at: usize, limit: u16) -> Result<CellAt, Refusal>
    ensures { numbered result ≡ cell_read (bounded_at limit (source_from lent.now frame) at) }
{
    let size = u16_at(lent, frame, at)?;
    if size.value == NULL_LENGTH {
        return Ok(CellAt {
            value: Value::Null,
            next: size.next,
        });
    }
    if !is_within(size.value, limit as u64) {
        return Err(Refusal::InnerWrong);
    }
    let text = part_at(lent, frame, size.next, size.value as usize)?;
    Ok(CellAt {
        value: Value::Part(text.part),
        next: text.next,
    })
}

// Whether a text of n bytes goes with a column of some length.
fn is_within(n: u64, limit: u64) -> bool
    ensures { result ≡ (even n && leb n limit) }
{
    (n % 2 == 0) & (n <= limit)
}

// A Max cell: null, or a total that is known or not, and chunks.
fn max_at(lent: &[u8], frame: Frame, at: usize, text: bool) -> Result<CellAt, Refusal>
    ensures { numbered result ≡ cell_read (max_at text (source_from lent.now frame) at) }
{
    let total = u64_at(lent, frame, at)?;
    if total.value == NULL_TOTAL {
        return Ok(CellAt {
            value: Value::Null,
            next: total.next,
        });
    }
    if !goes_with(total.value, text) {
        return Err(Refusal::InnerWrong);
    }
    let known = total.value != UNKNOWN_TOTAL;
    let chunks = chunks_at(lent, frame, total.next, text, known, total.value as usize)?;
    Ok(CellAt {
        value: Value::Max(chunks.part),
        next: chunks.next,
    })
}

// Whether n bytes can be those of a text, where they are: they are even.
fn goes_with(n: u64, text: bool) -> bool
    ensures { result ≡ (even n || not text) }
{
    (n % 2 == 0) | !text
}

// The chunks of a Max value: the part from the first chunk length through the zero one, how many bytes the chunks hold
// together, and the place after them.
#[derive(Clone, Copy)]
pub struct ChunksAt {
    pub part: Part,
    pub count: usize,
    pub next: usize,
}

// The chunks of a Max value from a place on, up to a zero length, where they have a total that is known or not. Each is read from
// the packet in which the one before it ended, so that no header is passed for every chunk.
pub fn chunks_at(
    lent: &[u8],
    frame: Frame,
    start: usize,
    text: bool,
    known: bool,
    total: usize,
) -> Result<ChunksAt, Refusal>
    ensures { numbered result ≡ chunks_read (source_from lent.now frame) start (chunks_at (suc (length (source_from lent.now frame).bytes)) text known (source_from lent.now frame) start total start) }
{
    let mut here = frame;
    let mut at = start;
    let mut left = total;
    let mut count = 0;
    loop {
        match chunk_at(lent, here, at, text, known, left)? {
            Chunk::Last(next) => {
                return Ok(ChunksAt {
                    part: Part {
                        start,
                        len: next - start,
                    },
                    count,
                    next,
                });
            },
            Chunk::More { len, next } => {
                left = left.saturating_sub(len);
                count += len;
                here = frame_at(lent, here, next);
                at = next;
            },
        }
    }
}

// What a chunk can be: one of len bytes, or the zero length that ends the chunks; with the place after it.
#[derive(Clone, Copy)]
enum Chunk {
    More { len: usize, next: usize },
    Last(usize),
}

// The chunk at a place, where left bytes of a total that is known or not are to come.
fn chunk_at(
    lent: &[u8],
    frame: Frame,
    at: usize,
    text: bool,
    known: bool,
    left: usize,
) -> Result<Chunk, Refusal>
    ensures { numbered result ≡ chunk_read (chunk_at text known (source_from lent.now frame) left at) }
{
    let size = u32_at(lent, frame, at)?;
    let len = size.value as usize;
    if len == 0 {
        if !is_last(known, left) {
            return Err(Refusal::InnerWrong);
        }
        return Ok(Chunk::Last(size.next));
    }
    if !is_chunk(text, known, left, len) {
        return Err(Refusal::InnerWrong);
    }
    let chunk = part_at(lent, frame, size.next, len)?;
    Ok(Chunk::More {
        len,
        next: chunk.next,
    })
}

// Whether a chunk of n bytes can stand where left bytes are to come, and whether the last can.
#[tactic(auto, unfolding(crate::specs::Cells::is_chunk))]
fn is_chunk(text: bool, known: bool, left: usize, n: usize) -> bool
    ensures { result ≡ is_chunk text known left n }
{
    ((n % 2 == 0) | !text) & ((n <= left) | !known)
}

#[tactic(auto, unfolding(crate::specs::Cells::is_last))]
fn is_last(known: bool, left: usize) -> bool
    ensures { result ≡ is_last known left }
{
    (left == 0) | !known
}
