// Writers of what a reply other than a query's holds.
ghost use Rattle.std.specs.Prelude.{cond, [], ◌∷◌, ◌+◌, ◌≤◌, length};
ghost use Rattle.wire.specs.Be.{be};
ghost use Rattle.wire.specs.Fields.{flat, word, raw};
ghost use Rattle.wire.specs.Puts.{Puts};
ghost use Rattle.script.specs.Records.{records};
ghost use Rattle.response.specs.Login.{login_ack_token, info_option, info_options, fedauth_info};
ghost use Rattle.response.specs.Routing.{target, plain_route, database_route};
ghost use Rattle.response.specs.Lists.{feature_ext_ack};
ghost use Rattle.response.specs.Replies.{error_fields, routing_ack, routing_tokens};

use crate::lists::{Features, Routes, put_records};
use wire::Writer;

// The codes of tokens, as MS-TDS numbers them.
const ENVCHANGE: u8 = 0xE3;

const FEATUREEXTACK: u8 = 0xAE;

const FEDAUTHINFO: u8 = 0xEE;

// The types of ENVCHANGE that route.
const ENVCHANGE_ROUTING: u8 = 20;

const ENVCHANGE_ENHANCED_ROUTING: u8 = 21;

const FEATURE_EXT_TERMINATOR: u8 = 0xFF;

// The options of FEDAUTHINFO.
const STSURL: u8 = 0x01;

const SPN: u8 = 0x02;

// A text after a count.
fn put_text(w: &mut Writer, count: u16, text: &[u8])
    ensures { Puts w.old (flat (word 2 count ∷ raw text.now ∷ [])) w.new }
{
    w.put_u16_le(count);
    w.put_slice(text);
}

// An ENVCHANGE that routes, up to its new value of a size.
fn put_routing_head(w: &mut Writer, env_type: u8, size: usize)
    ensures { Puts w.old (flat (word 1 0xE3 ∷ word 2 (5 + size) ∷ word 1 env_type ∷ word 2 size ∷ [])) w.new }
{
    let low = size % 65536;
    w.put_u8(ENVCHANGE);
    w.put_u16_le(((5 + low) % 65536) as u16);
    w.put_u8(env_type);
    w.put_u16_le(low as u16);
}

// Where a client is sent to: protocol TCP, port, server.
fn put_target(w: &mut Writer, host: &[u8], port: u16)
    ensures { Puts w.old (flat (target host.now port [])) w.new }
{
    w.put_u8(0x00);
    w.put_u16_le(port);
    put_text(w, (host.len() / 2 % 65536) as u16, host);
}

pub(crate) fn put_plain_route(w: &mut Writer, host: &[u8], port: u16)
    ensures { Puts w.old (flat (plain_route host.now port)) w.new }
{
    let size = 5 + host.len() % 65536;
    put_routing_head(w, ENVCHANGE_ROUTING, size);
    put_target(w, host, port);
    w.put_u16_le(0);
}

pub(crate) fn put_database_route(w: &mut Writer, host: &[u8], port: u16, database: &[u8])
    ensures { Puts w.old (flat (database_route host.now port database.now)) w.new }
{
    let size = 7 + host.len() % 65536 + database.len() % 65536;
    put_routing_head(w, ENVCHANGE_ENHANCED_ROUTING, size);
    put_target(w, host, port);
    put_text(w, (database.len() / 2 % 65536) as u16, database);
    w.put_u16_le(0);
}

// FEATUREEXTACK of a list of features.
pub(crate) fn put_feature_ext_ack(w: &mut Writer, list: &[u8])
    ensures { Puts w.old (feature_ext_ack (records list.now)) w.new }
{
    w.put_u8(FEATUREEXTACK);
    put_records(w, list, &Features);
    w.put_u8(FEATURE_EXT_TERMINATOR);
}

// An option of FEDAUTHINFO, whose text of a size stands at an offset.
fn put_info_option(w: &mut Writer, id: u8, size: usize, offset: usize)
    ensures { Puts w.old (flat (info_option id size offset [])) w.new }
{
    w.put_u8(id);
    w.put_u32_le((size % 0x1_0000_0000) as u32);
    w.put_u32_le((offset % 0x1_0000_0000) as u32);
}

// FEDAUTHINFO up to its texts, of which the sizes are known.
fn put_info_head(w: &mut Writer, sts: usize, spn: usize)
    ensures { Puts w.old (flat (word 1 0xEE ∷ word 4 (22 + sts + spn) ∷ info_options sts spn [])) w.new }
{
    let after_url = 22 + sts % 0x1_0000_0000;
    let size = after_url + spn % 0x1_0000_0000;
    w.put_u8(FEDAUTHINFO);
    w.put_u32_le((size % 0x1_0000_0000) as u32);
    w.put_u32_le(2);
    put_info_option(w, STSURL, sts, 22);
    put_info_option(w, SPN, spn, after_url);
}

pub(crate) fn put_fedauth_info(w: &mut Writer, sts_url: &[u8], spn: &[u8])
    ensures { Puts w.old (flat (fedauth_info sts_url.now spn.now)) w.new }
{
    put_info_head(w, sts_url.len(), spn.len());
    w.put_slice(sts_url);
    w.put_slice(spn);
}

// The error reply's ERROR up to its text. Its length is big-endian, as the Rust writes it.
fn put_error_head(w: &mut Writer, size: u16)
    ensures { Puts w.old (flat (word 1 0xAA ∷ raw (be 2 size) ∷ word 4 50000 ∷ word 1 1 ∷ word 1 16 ∷ [])) w.new }
{
    w.put_u8(token::ERROR);
    w.put_u16(size);
    w.put_u32_le(50000);
    w.put_u8(1);
    w.put_u8(16);
}

// No server and procedure names, line 1.
const NO_NAMES_LINE_1: [u8; 6] = *b"\x00\x00\x01\x00\x00\x00";

// The error reply's ERROR. Its text's count is that of its bytes as UTF-8, as the Rust writes it.
pub(crate) fn put_error(w: &mut Writer, text: &[u8])
    ensures { Puts w.old (flat (error_fields text.now)) w.new }
{
    let size = (14 + text.len() % 65536) % 65536;
    let count = text::utf8_length(text) % 65536;
    put_error_head(w, size as u16);
    put_text(w, count as u16, text);
    w.put_slice(&NO_NAMES_LINE_1);
}

// LOGINACK and the ENVCHANGEs of collation, database and packet size.
pub(crate) const LOGIN_ACK: [u8; 90] =
    *b"\xAD\x24\x00\x01\x74\x00\x00\x04\x0DM\0o\0c\0k\0T\0d\0s\0S\0e\0r\0v\0e\0r\0\x10\x00\x00\x00\
    \xE3\x08\x00\x07\x05\x00\x00\x04\x09\xD0\x00\
    \xE3\x0F\x00\x01\x06m\0a\0s\0t\0e\0r\0\x00\
    \xE3\x13\x00\x04\x044\00\09\06\0\x044\00\09\06\0";

// The login's acknowledgement, where it is sent.
fn put_login_ack(w: &mut Writer, sent: bool)
    requires { w.old.at ≤ length w.old.buf.now }
    ensures { Puts w.old (cond sent login_ack_token []) w.new }
{
    if !sent {
        return;
    }
    w.put_slice(&LOGIN_ACK);
}

// The acknowledgement of enhanced routing, where it is sent.
fn put_routing_ack(w: &mut Writer, sent: bool, ack: Option<u8>)
    requires { w.old.at ≤ length w.old.buf.now }
    ensures { Puts w.old (cond sent (routing_ack ack) []) w.new }
{
    if !sent {
        return;
    }
    match ack {
        Some(enabled) => {
            let features = [2, 0, 0, 0, 0x13, 0, 0x0F, enabled];
            put_feature_ext_ack(w, &features);
        }
        None => {}
    }
}

// The tokens of a login that is routed.
pub(crate) fn put_routing_tokens(
    w: &mut Writer,
    routes: &[u8],
    to: &Routes,
    login_ack: bool,
    ack: Option<u8>,
    ack_before_routing: bool,
)
    requires { w.old.at ≤ length w.old.buf.now }
    ensures { Puts w.old (routing_tokens to.now.host.now to.now.port (records routes.now) login_ack ack ack_before_routing) w.new }
{
    put_login_ack(w, login_ack);
    put_routing_ack(w, ack_before_routing, ack);
    put_records(w, routes, to);
    put_routing_ack(w, !ack_before_routing, ack);
    token::put_done(w, 0, 0);
}
