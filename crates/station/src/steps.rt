// The reply reader: a position is lent as slots, and a step writes the token's slots and the next position.
ghost use Rattle.std.specs.Prelude.{◌≡◌, cond, ◌+◌, ◌≤◌, leb, ltb, length, get_or, set};
ghost use Rattle.wire.specs.Over.{overwrite};
ghost use Rattle.reader.specs.declared.Token.TheVariants as token;
ghost use Rattle.reader.specs.Positions.{held};
ghost use Rattle.reader.specs.Spots.{spot_of, held_in};
ghost use Rattle.cells.specs.Cells.{is_type};
ghost use Rattle.station.specs.Answer.{answers, answer_of, slots_of};
ghost use Rattle.station.specs.Steps.{code_of, length_of, first_of, position_of, fresh_call, bits_of, four_slots, cell_slots, token_slots, step_outcome, step_call, spot_slots, with_type, slots_after, position_left};

use crate::slots::{answered, refused};
use cells::Value;
use reader::{HeldTypes, MAX_COLUMNS, Spot, Token, got_at, spot_after};
use refusals::Refusal;
use wire::Part;

// The slots of a position.
const POSITION_SLOTS: usize = 134;

// The slots of a step.
const STEP_SLOTS: usize = 11;

// The slot of the first column's type, after those of place, columns, columns left, cells left, the last DONE and the packet.
const FIRST_TYPE: usize = 6;

// Slots of types are smaller.
const NO_TYPE: u64 = 0x100_0000;

// In a type's slot the code stands above the length.
const CODE: u64 = 65536;

// 0: the position of a reader that has read nothing.
#[unsafe(no_mangle)]
pub extern "C" fn station_fresh(position: &mut [u64]) -> i64
    ensures value { result ≡ answer_of fresh_call position.old }
    ensures position_after { position.new ≡ slots_of fresh_call position.old }
{
    let mut values: [u64; 134] = [0; 134];
    values[0] = 8;
    values[5] = 1;
    answered(position, 0, &values)
}

// 1: the next token of a reply in packets, and the position after it. 0: the end, and the position is kept.
#[unsafe(no_mangle)]
pub extern "C" fn station_step(packets: &[u8], position: &mut [u64], out: &mut [u64]) -> i64
    ensures value { result ≡ answer_of (step_call packets.now position.old) out.old }
    ensures position_after { position.new ≡ position_left packets.now position.old out.old }
    ensures out_after { out.new ≡ slots_of (step_call packets.now position.old) out.old }
{
    let at = spot_in(position);
    match got_at(packets, at, held_in(position, at)) {
        Ok(Some(got)) => {
            let columns = at.count.saturating_sub(at.columns_left);
            let next = spot_after(at, got.token, got.packet, got.place);
            move_on(got.token, columns, next, position, out)
        },
        Ok(None) => 0,
        Err(refusal) => refused(refusal.number()),
    }
}

// A token that was read when so many columns were: its slots, and those of the next position.
fn move_on(token: Token, columns: usize, next: Spot, position: &mut [u64], out: &mut [u64]) -> i64
    requires { columns ≤ 128 }
    ensures value { result ≡ answer_of (step_outcome (length position.old) (Ok (Some token))) out.old }
    ensures position_after { position.new ≡ slots_after columns (Ok (Some token)) next position.old out.old }
    ensures out_after { out.new ≡ slots_of (step_outcome (length position.old) (Ok (Some token))) out.old }
{
    if position.len() < POSITION_SLOTS {
        return refused(Refusal::BufferTooShort.number());
    }
    if out.len() < STEP_SLOTS {
        return refused(Refusal::BufferTooShort.number());
    }
    put_spot(position, next);
    put_type(position, columns, token);
    tell_token(token, out)
}

// The position that slots stand for, without the types that it holds.
fn spot_in(slots: &[u64]) -> Spot
    ensures { result ≡ spot_of (position_of slots.now) }
{
    let over = slot_at(slots, 4);
    Spot {
        packet: slot_at(slots, 5) as usize,
        place: place_of(slots, over) as usize,
        count: slot_at(slots, 1) as usize,
        columns_left: slot_at(slots, 2) as usize,
        cells_left: slot_at(slots, 3) as usize,
        over: over == 1,
    }
}

// What a step asks of the types in the slots of a position.
fn held_in(slots: &[u64], at: Spot) -> HeldTypes
    requires { at ≡ spot_of (position_of slots.now) }
    ensures { result ≡ held_in (position_of slots.now) }
{
    let slot = type_slot(slots, at.count.saturating_sub(at.cells_left));
    HeldTypes {
        sound: are_types(slots, at.count.saturating_sub(at.columns_left)),
        code: code_of(slot),
        limit: (slot % CODE) as u16,
    }
}

// The slot of a column's type, 0 where it has none.
fn type_slot(slots: &[u64], column: usize) -> u64
    ensures { result ≡ cond (ltb column 128) (get_or slots.now (6 + column) 0) 0 }
{
    if column < MAX_COLUMNS {
        return slot_at(slots, FIRST_TYPE + column);
    }
    0
}

// Whether the slots of the first n columns are those of column types.
fn are_types(slots: &[u64], n: usize) -> bool
    ensures { result ≡ held n (first_of code_of 128 slots.now) (first_of length_of 128 slots.now) }
{
    if MAX_COLUMNS < n {
        return false;
    }
    if slots.len().saturating_sub(FIRST_TYPE) < n {
        return false;
    }
    for i in 0..n {
        if !is_type(slots[FIRST_TYPE + i]) {
            return false;
        }
    }
    true
}

// Whether a slot is that of a column type: 26 with length 1, 2, 4 or 8, E7 with 1 to 8000 or FFFF, A7 and A5 with FFFF.
fn is_type(slot: u64) -> bool
    ensures { result ≡ is_type (code_of slot) (length_of slot) }
{
    match slot {
        0x26_0001 | 0x26_0002 | 0x26_0004 | 0x26_0008 => true,
        0xE7_FFFF | 0xA7_FFFF | 0xA5_FFFF => true,
        _ => (0xE7_0001 <= slot) & (slot <= 0xE7_1F40),
    }
}

// A slot, 0 where it is not there.
fn slot_at(slots: &[u64], at: usize) -> u64
    ensures { result ≡ get_or slots.now at 0 }
{
    slots.get(at).copied().unwrap_or(0)
}

// The type's code of a column's slot, 0 where it is none.
fn code_of(slot: u64) -> u8
    ensures { result ≡ code_of slot }
{
    if slot < NO_TYPE {
        (slot / CODE) as u8
    } else {
        0
    }
}

// The place, 0 where the slot of the last DONE is neither 0 nor 1.
fn place_of(slots: &[u64], over: u64) -> u64
    ensures { result ≡ cond (leb over 1) (get_or slots.now 0 0) 0 }
{
    if over <= 1 { slot_at(slots, 0) } else { 0 }
}

// The slots of a position but its columns' types.
fn put_spot(slots: &mut [u64], next: Spot)
    requires { 6 ≤ length slots.old }
    ensures { slots.new ≡ overwrite slots.old 0 (spot_slots next) }
{
    slots[..FIRST_TYPE].copy_from_slice(&[
        next.place as u64,
        next.count as u64,
        next.columns_left as u64,
        next.cells_left as u64,
        u64::from(next.over),
        next.packet as u64,
    ]);
}

// Where a token is a column, its type in its slot, after those of so many columns.
fn put_type(slots: &mut [u64], columns: usize, token: Token)
    requires { columns ≤ 128 }
    ensures { slots.new ≡ with_type columns token slots.old }
{
    if let Token::Column { code, limit, .. } = token {
        put(
            slots,
            FIRST_TYPE + columns,
            (code as u64) * CODE + limit as u64,
        );
    }
}

// A value in a slot, where the slot is there.
fn put(slots: &mut [u64], at: usize, value: u64)
    ensures { slots.new ≡ set slots.old at value }
{
    if at < slots.len() {
        slots[at] = value;
    }
}

fn tell_token(token: Token, out: &mut [u64]) -> i64
    ensures value { result ≡ answer_of (answers 1 (token_slots token)) out.old }
    ensures out_after { out.new ≡ slots_of (answers 1 (token_slots token)) out.old }
{
    match token {
        Token::ColMetadata(count) => tell_four(0x81, count as u64, 0, 0, out),
        Token::Column {
            user_type,
            flags,
            code,
            limit,
            collation,
            name,
        } => tell_column(user_type, flags, code, limit, collation, name, out),
        Token::Row => tell_four(0xD1, 0, 0, 0, out),
        Token::Cell(value) => tell_cell(value, out),
        Token::Done {
            status,
            command,
            count,
        } => tell_four(0xFD, status as u64, command as u64, count, out),
        Token::Message {
            kind,
            number,
            state,
            class,
            text,
            server,
            procedure,
            line,
        } => tell_message(
            kind, number, state, class, text, server, procedure, line, out,
        ),
    }
}

fn tell_cell(value: Value, out: &mut [u64]) -> i64
    ensures value { result ≡ answer_of (answers 1 (cell_slots value)) out.old }
    ensures out_after { out.new ≡ slots_of (answers 1 (cell_slots value)) out.old }
{
    match value {
        Value::Null => tell_four(2, 0, 0, 0, out),
        Value::Number(n) => tell_four(2, 1, bits(n), 0, out),
        Value::Part(part) => tell_four(2, 2, part.start as u64, part.len as u64, out),
        Value::Max(part) => tell_four(2, 3, part.start as u64, part.len as u64, out),
    }
}

// A token that has no more than a kind and three fields.
fn tell_four(kind: u64, x: u64, y: u64, z: u64, out: &mut [u64]) -> i64
    ensures value { result ≡ answer_of (answers 1 (four_slots kind x y z)) out.old }
    ensures out_after { out.new ≡ slots_of (answers 1 (four_slots kind x y z)) out.old }
{
    answered(out, 1, &[kind, x, y, z, 0, 0, 0, 0, 0, 0, 0])
}

fn tell_column(
    user_type: u32,
    flags: u16,
    code: u8,
    limit: u16,
    collation: Part,
    name: Part,
    out: &mut [u64],
) -> i64
    ensures value { result ≡ answer_of (answers 1 (token_slots (token.Column user_type flags code limit collation name))) out.old }
    ensures out_after { out.new ≡ slots_of (answers 1 (token_slots (token.Column user_type flags code limit collation name))) out.old }
{
    let values = [
        1,
        user_type as u64,
        flags as u64,
        code as u64,
        limit as u64,
        collation.start as u64,
        collation.len as u64,
        name.start as u64,
        name.len as u64,
        0,
        0,
    ];
    answered(out, 1, &values)
}

fn tell_message(
    kind: u8,
    number: u32,
    state: u8,
    class: u8,
    text: Part,
    server: Part,
    procedure: Part,
    line: u32,
    out: &mut [u64],
) -> i64
    ensures value { result ≡ answer_of (answers 1 (token_slots (token.Message kind number state class text server procedure line))) out.old }
    ensures out_after { out.new ≡ slots_of (answers 1 (token_slots (token.Message kind number state class text server procedure line))) out.old }
{
    let values = [
        kind as u64,
        number as u64,
        state as u64,
        class as u64,
        line as u64,
        text.start as u64,
        text.len as u64,
        server.start as u64,
        server.len as u64,
        procedure.start as u64,
        procedure.len as u64,
    ];
    answered(out, 1, &values)
}

// The 64 bits of a number, in two's complement.
pub(crate) fn bits(n: i64) -> u64
    ensures { result ≡ bits_of n }
{
    n.cast_unsigned()
}
