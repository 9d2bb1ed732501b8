// The fit check (document 01, 'The script'; document 02, 2026-06): whether a script fits, or the first misfit that it has: by set; in a
// set the classification, then columns, then cells by row and column. One pass over the records, with the types of the set's columns at
// hand, after the passes that find a script's refusal.
#![tactic(auto)]

ghost use Rattle.std.specs.Prelude.{◌≡◌, length, drop};
ghost use Rattle.refusals.specs.Refused.{numbered};
ghost use Rattle.script.specs.Records.{records};
ghost use Rattle.fit.specs.Misfits.{cell_fits, first_of, fit_of};
ghost use Rattle.fit.specs.Records.{misfits_from, set_from, sets_from, terminal, misfits_in};
ghost use Rattle.fit.specs.Walks.{cell_wrong, row_end, RowWalked, ColumnsWalked, SetWalked};

use refusals::Refusal;
use script::Found;

// A misfit: the classification of a set, a column, or a cell. All numbers count from 0.
#[derive(Clone, Copy, PartialEq, Eq, Debug)]
pub enum Misfit {
    Classification {
        set: usize,
    },
    Column {
        set: usize,
        column: usize,
    },
    Cell {
        set: usize,
        row: usize,
        column: usize,
    },
}

// The most columns of a set, and the most bytes of text in a cell of value 5.
const MOST_COLUMNS: usize = 128;

const MOST_TEXT: usize = 8000;

// Whether a cell is of a column's type.
#[tactic(auto, unfolding(crate::specs::Misfits::cell_fits))]
fn cell_fits(data_type: u8, p: &[u8]) -> bool
    ensures { result ≡ cell_fits data_type p.now }
{
    let value = wire::get_u8(p, 0);
    match value {
        5 => (data_type == 5) & (wire::left(p, 1) <= MOST_TEXT),
        7 => (6 <= data_type) & (data_type <= 8),
        8 => data_type == 7,
        9 => data_type == 8,
        10 => (1 <= data_type) & (data_type <= 4),
        _ => data_type == value,
    }
}

// A row's cells, from a place on, against the types of its columns: all right, with the place after them, or the number of the
// first that is wrong.
fn walk_row(s: &[u8], from: usize, types: &[u8]) -> Result<usize, usize>
    ensures { RowWalked s.now from types.now result }
{
    if types.is_empty() {
        return Err(0);
    }
    let mut at = from;
    let mut column: usize = 0;
    loop {
        match script::record_at(s, at) {
            Found::Cut | Found::End => {
                return row_end(column, types.len(), at);
            }
            Found::Record { kind, start, len } => {
                let next = start + len;
                if kind == script::CHUNK {
                    at = next;
                    continue;
                }
                if kind != script::CELL {
                    return row_end(column, types.len(), at);
                }
                if cell_wrong(types, column, &s[start..next]) {
                    return Err(column);
                }
                column += 1;
                at = next;
            }
        }
    }
}

// Whether a cell is a misfit: there is no column for it, or it is not of its column's type.
#[tactic(auto, unfolding(crate::specs::Walks::cell_wrong))]
fn cell_wrong(types: &[u8], column: usize, p: &[u8]) -> bool
    ensures { result ≡ cell_wrong (drop column types.now) p.now }
{
    match types.get(column) {
        None => true,
        Some(data_type) => !cell_fits(*data_type, p),
    }
}

// At the end of a row that is right so far, of so many cells: wrong where there are more columns.
#[tactic(auto, unfolding(crate::specs::Walks::row_end))]
fn row_end(cells: usize, columns: usize, at: usize) -> Result<usize, usize>
    ensures { result ≡ row_end cells columns at }
{
    if cells < columns { Err(cells) } else { Ok(at) }
}

// A set's columns: their count, and the place after them.
#[derive(Clone, Copy)]
struct Columns {
    count: usize,
    next: usize,
}

// A set's columns, from a place on; none where they are too many. Their types go to the start of types.
fn walk_columns(s: &[u8], from: usize, types: &mut [u8; MOST_COLUMNS]) -> Option<Columns>
    requires { length types.old ≡ 128 }
    ensures { ColumnsWalked s.now from types.new result }
{
    let mut at = from;
    let mut count: usize = 0;
    loop {
        match script::record_at(s, at) {
            Found::Cut | Found::End => {
                return Some(Columns { count, next: at });
            }
            Found::Record { kind, start, len } => {
                if kind != script::COLUMN {
                    return Some(Columns { count, next: at });
                }
                if MOST_COLUMNS <= count {
                    return None;
                }
                let next = start + len;
                types[count] = wire::get_u8(&s[start..next], 0);
                count += 1;
                at = next;
            }
        }
    }
}

// The rows of a set, from a place after its columns on, up to the next set: all right, with the place after them, or their first
// misfit.
fn walk_rows(s: &[u8], set: usize, from: usize, types: &[u8]) -> Result<usize, Misfit>
    ensures { SetWalked s.now set from (misfits_from set 0 types.now (records (drop from s.now))) result }
{
    let mut at = from;
    let mut row: usize = 0;
    loop {
        match script::record_at(s, at) {
            Found::Cut | Found::End => {
                return Ok(at);
            }
            Found::Record { kind, start, len } => {
                let next = start + len;
                if kind == script::SET {
                    return Ok(at);
                }
                if kind != script::ROW {
                    at = next;
                    continue;
                }
                match walk_row(s, next, types) {
                    Err(column) => {
                        return Err(Misfit::Cell { set, row, column });
                    }
                    Ok(after) => {
                        row += 1;
                        at = after;
                    }
                }
            }
        }
    }
}

// A set whose classification is given, from the place after its record on: all right, with the place after it, or its first misfit.
fn walk_set(s: &[u8], set: usize, classification: &[u8], from: usize) -> Result<usize, Misfit>
    ensures { SetWalked s.now set from (set_from set classification.now (records (drop from s.now))) result }
{
    if !classification.is_empty() {
        return Err(Misfit::Classification { set });
    }
    let mut types = [0u8; MOST_COLUMNS];
    let Some(columns) = walk_columns(s, from, &mut types) else {
        return Err(Misfit::Column {
            set,
            column: MOST_COLUMNS,
        });
    };
    walk_rows(s, set, columns.next, &types[..columns.count])
}

// The first misfit of a script's sets.
fn walk_sets(s: &[u8]) -> Option<Misfit>
    ensures { result ≡ first_of (sets_from 0 (records s.now)) }
{
    let mut at: usize = 0;
    let mut set: usize = 0;
    loop {
        match script::record_at(s, at) {
            Found::Cut | Found::End => {
                return None;
            }
            Found::Record {
                kind: _,
                start,
                len,
            } => {
                let next = start + len;
                match walk_set(s, set, &s[start..next], next) {
                    Err(misfit) => {
                        return Some(misfit);
                    }
                    Ok(after) => {
                        set += 1;
                        at = after;
                    }
                }
            }
        }
    }
}

// Whether a script is terminal: a terminal error stands in its first set.
fn is_terminal(s: &[u8]) -> bool
    ensures { result ≡ terminal (records s.now) }
{
    match script::record_at(s, 0) {
        Found::Cut | Found::End => false,
        Found::Record {
            kind: _,
            start,
            len,
        } => emission::error_in(s, start + len, script::TERMINAL_ERROR).is_some(),
    }
}

// The first misfit of a script that is not refused; none where it fits.
#[tactic(auto, unfolding(crate::specs::Records::misfits_in))]
fn first_misfit(s: &[u8]) -> Option<Misfit>
    ensures { result ≡ first_of (misfits_in (records s.now)) }
{
    if is_terminal(s) {
        return None;
    }
    walk_sets(s)
}

// The fit check: a script's first misfit, none where it fits; or its refusal, 11 to 17.
pub fn check(script: &[u8]) -> Result<Option<Misfit>, Refusal>
    ensures { numbered result ≡ fit_of script.now }
{
    emission::reply_length(script)?;
    Ok(first_misfit(script))
}
