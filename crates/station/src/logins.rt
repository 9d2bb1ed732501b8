// Logins, and the database to open.
ghost use Rattle.std.specs.Prelude.{◌≡◌, ◌<◌, ◌^◌, length};
ghost use Rattle.station.specs.Answer.{answers, answer_of, slots_of};
ghost use Rattle.station.specs.Logins.{byte_slot, part_slots, login_slots, login_call, ids_left, database_call};

use crate::slots::{answered, answered_part, flag, refused};
use login::Login;
use refusals::Refusal;
use wire::Part;

// The slots of a login.
const LOGIN_SLOTS: usize = 13;

// The slot of a byte that is not there.
const NO_BYTE: u64 = 256;

// The start of a text that is not there: no text has it.
const NO_START: usize = usize::MAX;

// The number of feature ids, which stand in the first of ids; fedauth, library, workflow, classification version and
// session, then start and length of token, server, user agent and database. Too few slots are found out before ids are
// written.
#[unsafe(no_mangle)]
pub extern "C" fn station_parse_login7(body: &[u8], ids: &mut [u8], out: &mut [u64]) -> i64
    ensures value { result ≡ answer_of (login_call body.now (length ids.old)) out.old }
    ensures ids_after { ids.new ≡ ids_left body.now ids.old out.old }
    ensures out_after { out.new ≡ slots_of (login_call body.now (length ids.old)) out.old }
{
    if out.len() < LOGIN_SLOTS {
        return refused(Refusal::BufferTooShort.number());
    }
    match login::parse_login7(body, ids) {
        Ok(read) => tell_login(read.login, read.ids, out),
        Err(refusal) => refused(refusal.number()),
    }
}

fn tell_login(login: Login, count: usize, out: &mut [u64]) -> i64
    requires { count < 2 ^ 63 }
    ensures value { result ≡ answer_of (answers count (login_slots login)) out.old }
    ensures out_after { out.new ≡ slots_of (answers count (login_slots login)) out.old }
{
    let token = part(login.access_token_bytes);
    let server = part(login.server_name);
    let agent = part(login.user_agent);
    let database = part(login.database);
    let values = [
        flag(login.has_fedauth),
        login.fedauth_library as u64,
        byte(login.fedauth_workflow),
        byte(login.data_classification_version),
        flag(login.session),
        token.start as u64,
        token.len as u64,
        server.start as u64,
        server.len as u64,
        agent.start as u64,
        agent.len as u64,
        database.start as u64,
        database.len as u64,
    ];
    answered(out, count, &values)
}

fn byte(value: Option<u8>) -> u64
    ensures { result ≡ byte_slot value }
{
    value.map_or(NO_BYTE, |n| n as u64)
}

fn part(text: Option<Part>) -> Part
    ensures { result ≡ part_slots text }
{
    text.unwrap_or(Part {
        start: NO_START,
        len: 0,
    })
}

// The database to open. 0: start and length of the login's own. 1: it has none, and start and length of the fallback.
#[unsafe(no_mangle)]
pub extern "C" fn station_database(body: &[u8], fallback: &[u8], out: &mut [u64]) -> i64
    ensures value { result ≡ answer_of (database_call body.now fallback.now) out.old }
    ensures out_after { out.new ≡ slots_of (database_call body.now fallback.now) out.old }
{
    match login::database_part(body) {
        Some(part) => answered_part(out, 0, part),
        None => answered_part(
            out,
            1,
            Part {
                start: 0,
                len: fallback.len(),
            },
        ),
    }
}
