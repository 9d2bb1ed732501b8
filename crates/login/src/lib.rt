// The login (MS-TDS 2.2.6.4, LOGIN7): `parse_login7` of the Rust, and the database to open. A login of any length is read:
// what it does not hold is missing.
#![tactic(auto)]

ghost use Rattle.std.specs.Prelude.{◌≡◌, ◌||◌, ◌≤◌, ◌<◌, ◌+◌, ◌^◌, min, eqb, length, drop};
ghost use mathlib.Core.List.{foldl};
ghost use Rattle.refusals.specs.Refused.{numbered};
ghost use Rattle.wire.specs.Over.{overwrite};
ghost use Rattle.login.specs.Body.{text_at, features_at};
ghost use Rattle.login.specs.Features.{ids_of};
ghost use Rattle.login.specs.Inner.{features_from, follow, Lies};
ghost use Rattle.login.specs.Rules.{byte_at, whole, has_options, library_in, session_after, fedauth_after, library_after, workflow_after, token_after, version_after, user_agent_after};
ghost use Rattle.login.specs.Login.{head_of, after, parse_login7, ids_after, database_part, database_of};

use refusals::Refusal;
use wire::Part;

// Stands for `Login7AuthInfo`; a text or a token is a part of the body, counted from its first byte. session is whether the
// session-recovery feature carried session state.
#[derive(Clone, Copy)]
pub struct Login {
    pub has_fedauth: bool,
    pub access_token_bytes: Option<Part>,
    pub fedauth_library: u8,
    pub fedauth_workflow: Option<u8>,
    pub server_name: Option<Part>,
    pub user_agent: Option<Part>,
    pub data_classification_version: Option<u8>,
    pub database: Option<Part>,
    pub session: bool,
}

// The login and how many feature ids it has.
#[derive(Clone, Copy)]
pub struct Read {
    pub login: Login,
    pub ids: usize,
}

// Feature ids.
pub const FEATURE_EXT_SESSION_RECOVERY: u8 = 0x01;

pub const FEATURE_EXT_FEDAUTH: u8 = 0x02;

pub const FEATURE_EXT_DATA_CLASSIFICATION: u8 = 0x09;

pub const FEATURE_EXT_USER_AGENT: u8 = 0x10;

pub const FEATURE_EXT_TERMINATOR: u8 = 0xFF;

// FEDAUTH libraries.
const SECURITY_TOKEN: u8 = 1;

const MSAL: u8 = 2;

// A token's options and length.
const TOKEN_HEAD: usize = 5;

// Places in the body: OptionFlags3, and the entries of the table of offsets and lengths.
const OPTION_FLAGS3: usize = 27;

const IB_SERVER_NAME: usize = 52;

const IB_EXTENSION: usize = 56;

const IB_DATABASE: usize = 68;

// The text of an entry.
fn read_login7_string(body: &[u8], entry: usize) -> Option<Part>
    ensures { result ≡ text_at body.now entry }
{
    if wire::left(body, entry) < 4 {
        return None;
    }
    let start = wire::get_u16_le(body, entry) as usize;
    let len = 2 * wire::get_u16_le(body, entry + 2) as usize;
    if len == 0 {
        return None;
    }
    if body.len() < start + len {
        return None;
    }
    let part = Part { start, len };
    if !text::is_well_formed(wire::part_of(body, part)) {
        return None;
    }
    Some(part)
}

// Where the features start; of a login that has none, its end.
fn features_at(body: &[u8]) -> usize
    ensures { result ≡ features_at body.now }
{
    if body.len() < IB_EXTENSION + 4 {
        return body.len();
    }
    if body[OPTION_FLAGS3] / 0x10 % 2 != 1 {
        return body.len();
    }
    let extension = wire::get_u16_le(body, IB_EXTENSION) as usize;
    if body.len() < extension + 4 {
        return body.len();
    }
    wire::get_u32_le(body, extension) as usize
}

// A feature. Its data are a part of the body that may run past the end.
#[derive(Clone, Copy)]
struct Feature {
    id: u8,
    part: Part,
}

// A feature's id and length.
const FEATURE_HEAD: usize = 5;

// What stands at a place. A feature counts once its id and length are whole.
fn feature_at(body: &[u8], at: usize) -> Option<Feature>
    ensures at_value { features_from body.now at ≡ follow body.now result }
    ensures lies { Lies body.now at result }
{
    if wire::left(body, at) < FEATURE_HEAD {
        return None;
    }
    let id = body[at];
    if id == FEATURE_EXT_TERMINATOR {
        return None;
    }
    let len = wire::get_u32_le(body, at + 1) as usize;
    Some(Feature {
        id,
        part: Part {
            start: at + FEATURE_HEAD,
            len,
        },
    })
}

// The place after a part, or the end where that comes first.
fn after_part(body: &[u8], part: Part) -> usize
    ensures { result ≡ min (part.start + part.len) (length body.now) }
{
    part.start.saturating_add(part.len).min(body.len())
}

// What a feature does to each value of the login: `was` is the value before it, `held` what the body holds of its data.
// The byte at a place of the data.
fn byte_at(held: &[u8], at: usize) -> Option<u8>
    ensures { result ≡ byte_at (drop at held.now) }
{
    held.get(at).copied()
}

// Whether the data do not run past the body's end.
fn is_whole(feature: Feature, held: &[u8]) -> bool
    ensures { result ≡ whole feature held.now }
{
    feature.part.len <= held.len()
}

// The session state, by each SESSIONRECOVERY.
fn session_after(feature: Feature, was: bool) -> bool
    ensures { result ≡ session_after feature was }
{
    if feature.id != FEATURE_EXT_SESSION_RECOVERY {
        return was;
    }
    0 < feature.part.len
}

// Whether a FEDAUTH was there.
fn fedauth_after(feature: Feature, was: bool) -> bool
    ensures { result ≡ fedauth_after feature was }
{
    (feature.id == FEATURE_EXT_FEDAUTH) | was
}

// Whether this is a FEDAUTH with options.
fn has_options(feature: Feature, held: &[u8]) -> bool
    ensures { result ≡ has_options feature held.now }
{
    (feature.id == FEATURE_EXT_FEDAUTH) & is_whole(feature, held) & (0 < held.len())
}

// The library that options name.
fn library_in(held: &[u8]) -> u8
    ensures { result ≡ library_in held.now }
{
    wire::get_u8(held, 0) / 2 % 4
}

// The library, by each FEDAUTH with options.
fn library_after(feature: Feature, held: &[u8], was: u8) -> u8
    ensures { result ≡ library_after feature held.now was }
{
    if !has_options(feature, held) {
        return was;
    }
    library_in(held)
}

// The workflow, by each FEDAUTH of the library MSAL.
fn workflow_after(feature: Feature, held: &[u8], was: Option<u8>) -> Option<u8>
    ensures { result ≡ workflow_after feature held.now was }
{
    if !has_options(feature, held) {
        return was;
    }
    if library_in(held) != MSAL {
        return was;
    }
    byte_at(held, 1)
}

// The token, by each FEDAUTH that holds one.
fn token_after(feature: Feature, held: &[u8], was: Option<Part>) -> Option<Part>
    requires { feature.part.start + length held.now < 2 ^ 64 }
    ensures { result ≡ token_after feature held.now was }
{
    if !has_options(feature, held) {
        return was;
    }
    if library_in(held) != SECURITY_TOKEN {
        return was;
    }
    if held.len() <= TOKEN_HEAD {
        return was;
    }
    let len = wire::get_u32_le(held, 1) as usize;
    if held.len() - TOKEN_HEAD < len {
        return was;
    }
    Some(Part {
        start: feature.part.start + TOKEN_HEAD,
        len,
    })
}

// The classification version, by each DATACLASSIFICATION that says to have data.
fn version_after(feature: Feature, held: &[u8], was: Option<u8>) -> Option<u8>
    ensures { result ≡ version_after feature held.now was }
{
    if feature.id != FEATURE_EXT_DATA_CLASSIFICATION {
        return was;
    }
    if feature.part.len == 0 {
        return was;
    }
    byte_at(held, 0)
}

// The user agent, by each USERAGENT that is a text.
fn user_agent_after(feature: Feature, held: &[u8], was: Option<Part>) -> Option<Part>
    ensures { result ≡ user_agent_after feature held.now was }
{
    if feature.id != FEATURE_EXT_USER_AGENT {
        return was;
    }
    if !is_whole(feature, held) {
        return was;
    }
    if !text::is_well_formed(held) {
        return was;
    }
    Some(feature.part)
}

// Whether a feature says something of a login.
fn counts(id: u8) -> bool
    ensures { result ≡ (eqb id 0x01 || eqb id 0x02 || eqb id 0x09 || eqb id 0x10) }
{
    (id == FEATURE_EXT_SESSION_RECOVERY)
        | (id == FEATURE_EXT_FEDAUTH)
        | (id == FEATURE_EXT_DATA_CLASSIFICATION)
        | (id == FEATURE_EXT_USER_AGENT)
}

// The login after a feature; most features leave it as it is.
fn after(body: &[u8], login: Login, feature: Feature) -> Login
    requires { feature.part.start ≤ length body.now }
    ensures { result ≡ after body.now login feature }
{
    if !counts(feature.id) {
        return login;
    }
    changed(body, login, feature)
}

// The login after a feature, value by value.
fn changed(body: &[u8], login: Login, feature: Feature) -> Login
    requires { feature.part.start ≤ length body.now }
    ensures { result ≡ after body.now login feature }
{
    let held = wire::part_of(body, feature.part);
    Login {
        has_fedauth: fedauth_after(feature, login.has_fedauth),
        access_token_bytes: token_after(feature, held, login.access_token_bytes),
        fedauth_library: library_after(feature, held, login.fedauth_library),
        fedauth_workflow: workflow_after(feature, held, login.fedauth_workflow),
        user_agent: user_agent_after(feature, held, login.user_agent),
        data_classification_version: version_after(
            feature,
            held,
            login.data_classification_version,
        ),
        session: session_after(feature, login.session),
        ..login
    }
}

// The login before its features.
fn head(body: &[u8]) -> Login
    ensures { result ≡ head_of body.now }
{
    Login {
        has_fedauth: false,
        access_token_bytes: None,
        fedauth_library: 0,
        fedauth_workflow: None,
        server_name: read_login7_string(body, IB_SERVER_NAME),
        user_agent: None,
        data_classification_version: None,
        database: read_login7_string(body, IB_DATABASE),
        session: false,
    }
}

// The login after all its features, of which the first stands at a place, and how many they are.
fn read_features(body: &[u8], first: usize) -> Read
    ensures login_value { result.login ≡ foldl (after body.now) (head_of body.now) (features_from body.now first) }
    ensures ids_value { result.ids ≡ length (features_from body.now first) }
{
    let mut at = first;
    let mut login = head(body);
    let mut ids: usize = 0;
    while let Some(feature) = feature_at(body, at) {
        login = after(body, login, feature);
        ids += 1;
        at = after_part(body, feature.part);
    }
    Read { login, ids }
}

// The ids of the features of which the first stands at a place, in their order from the front of ids.
fn write_ids(body: &[u8], first: usize, ids: &mut [u8])
    requires { length (features_from body.now first) ≤ length ids.old }
    ensures { ids.new ≡ overwrite ids.old 0 (ids_of (features_from body.now first)) }
{
    let mut at = first;
    let mut count: usize = 0;
    while let Some(feature) = feature_at(body, at) {
        ids[count] = feature.id;
        count += 1;
        at = after_part(body, feature.part);
    }
}

// What the body of a login says. Its feature ids go to the first of the bytes lent for them; nothing is written where these
// are too few.
pub fn parse_login7(body: &[u8], ids: &mut [u8]) -> Result<Read, Refusal>
    ensures value { numbered result ≡ parse_login7 body.now (length ids.old) }
    ensures ids_after { ids.new ≡ ids_after body.now ids.old }
{
    let first = features_at(body);
    let read = read_features(body, first);
    if ids.len() < read.ids {
        return Err(Refusal::BufferTooShort);
    }
    write_ids(body, first, ids);
    Ok(read)
}

// The login's own database, where it names one.
pub fn database_part(body: &[u8]) -> Option<Part>
    ensures { result ≡ database_part body.now }
{
    read_login7_string(body, IB_DATABASE)
}

// The database to open: the login's own, or where it names none the lent default.
pub fn database<'a>(body: &'a [u8], fallback: &'a [u8]) -> &'a [u8]
    ensures { result.now ≡ database_of body.now fallback.now }
{
    match database_part(body) {
        Some(part) => wire::part_of(body, part),
        None => fallback,
    }
}
