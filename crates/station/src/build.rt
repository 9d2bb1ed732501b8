// Replies: the exports of `response`'s builders and of its cutting, by its names and with its arguments. The answer is how many
// bytes were written to the front of buf, or -N, and then buf is as it was.
ghost use Rattle.std.specs.Prelude.{◌≡◌, false, length};
ghost use Rattle.script.specs.Records.{records};
ghost use Rattle.response.specs.Answer.{buffer_of};
ghost use Rattle.response.specs.Packets.{cut_buffer};
ghost use Rattle.response.specs.Replies.{prelogin_reply, fedauth_ack_reply, classification_ack_reply, features_reply, routing_ack_reply, challenge_reply, fedauth_info_reply, login_ack_reply, done_reply, attention_reply, transaction_reply, info_reply, error_tokens_reply, error_reply, route_reply, routing_reply, database_route_reply, routing_login_reply};
ghost use Rattle.station.specs.Builds.{built_number, cut_number, ack_of};

use crate::slots::tell;

// PRELOGIN without encryption and FEDAUTH.
#[unsafe(no_mangle)]
pub extern "C" fn station_build_prelogin_response(buf: &mut [u8]) -> i64
    ensures value { result ≡ built_number (prelogin_reply false false) buf.old }
    ensures buf_after { buf.new ≡ buffer_of (prelogin_reply false false) buf.old }
{
    tell(response::build_prelogin_response(buf))
}

#[unsafe(no_mangle)]
pub extern "C" fn station_build_prelogin_response_with_encryption(
    supports_encryption: bool,
    buf: &mut [u8],
) -> i64
    ensures value { result ≡ built_number (prelogin_reply supports_encryption false) buf.old }
    ensures buf_after { buf.new ≡ buffer_of (prelogin_reply supports_encryption false) buf.old }
{
    tell(response::build_prelogin_response_with_encryption(supports_encryption, buf))
}

#[unsafe(no_mangle)]
pub extern "C" fn station_build_prelogin_response_with_fedauth(
    supports_encryption: bool,
    supports_fedauth: bool,
    buf: &mut [u8],
) -> i64
    ensures value { result ≡ built_number (prelogin_reply supports_encryption supports_fedauth) buf.old }
    ensures buf_after { buf.new ≡ buffer_of (prelogin_reply supports_encryption supports_fedauth) buf.old }
{
    tell(response::build_prelogin_response_with_fedauth(supports_encryption, supports_fedauth, buf))
}

#[unsafe(no_mangle)]
pub extern "C" fn station_build_prelogin_response_with_options(
    supports_encryption: bool,
    supports_fedauth: bool,
    buf: &mut [u8],
) -> i64
    ensures value { result ≡ built_number (prelogin_reply supports_encryption supports_fedauth) buf.old }
    ensures buf_after { buf.new ≡ buffer_of (prelogin_reply supports_encryption supports_fedauth) buf.old }
{
    tell(response::build_prelogin_response_with_options(supports_encryption, supports_fedauth, buf))
}

// FEATUREEXTACK tokens.
#[unsafe(no_mangle)]
pub extern "C" fn station_build_feature_ext_ack_fedauth(buf: &mut [u8]) -> i64
    ensures value { result ≡ built_number fedauth_ack_reply buf.old }
    ensures buf_after { buf.new ≡ buffer_of fedauth_ack_reply buf.old }
{
    tell(response::build_feature_ext_ack_fedauth(buf))
}

#[unsafe(no_mangle)]
pub extern "C" fn station_build_feature_ext_ack_data_classification(
    version: u8,
    buf: &mut [u8],
) -> i64
    ensures value { result ≡ built_number (classification_ack_reply version) buf.old }
    ensures buf_after { buf.new ≡ buffer_of (classification_ack_reply version) buf.old }
{
    tell(response::build_feature_ext_ack_data_classification(version, buf))
}

#[unsafe(no_mangle)]
pub extern "C" fn station_build_feature_ext_ack(features: &[u8], buf: &mut [u8]) -> i64
    ensures value { result ≡ built_number (features_reply features.now) buf.old }
    ensures buf_after { buf.new ≡ buffer_of (features_reply features.now) buf.old }
{
    tell(response::build_feature_ext_ack(features, buf))
}

#[unsafe(no_mangle)]
pub extern "C" fn station_build_feature_ext_ack_enhanced_routing(
    is_enabled: u8,
    buf: &mut [u8],
) -> i64
    ensures value { result ≡ built_number (routing_ack_reply is_enabled) buf.old }
    ensures buf_after { buf.new ≡ buffer_of (routing_ack_reply is_enabled) buf.old }
{
    tell(response::build_feature_ext_ack_enhanced_routing(is_enabled, buf))
}

// FEDAUTHINFO, in a packet after the acknowledgement of FEDAUTH, and by itself.
#[unsafe(no_mangle)]
pub extern "C" fn station_build_fedauth_challenge_response(
    sts_url: &[u8],
    spn: &[u8],
    buf: &mut [u8],
) -> i64
    ensures value { result ≡ built_number (challenge_reply sts_url.now spn.now) buf.old }
    ensures buf_after { buf.new ≡ buffer_of (challenge_reply sts_url.now spn.now) buf.old }
{
    tell(response::build_fedauth_challenge_response(sts_url, spn, buf))
}

#[unsafe(no_mangle)]
pub extern "C" fn station_build_fedauth_info_token(
    sts_url: &[u8],
    spn: &[u8],
    buf: &mut [u8],
) -> i64
    ensures value { result ≡ built_number (fedauth_info_reply sts_url.now spn.now) buf.old }
    ensures buf_after { buf.new ≡ buffer_of (fedauth_info_reply sts_url.now spn.now) buf.old }
{
    tell(response::build_fedauth_info_token(sts_url, spn, buf))
}

// LOGINACK with its ENVCHANGEs.
#[unsafe(no_mangle)]
pub extern "C" fn station_build_login_ack(buf: &mut [u8]) -> i64
    ensures value { result ≡ built_number login_ack_reply buf.old }
    ensures buf_after { buf.new ≡ buffer_of login_ack_reply buf.old }
{
    tell(response::build_login_ack(buf))
}

// DONE.
#[unsafe(no_mangle)]
pub extern "C" fn station_build_done_token_with_status(
    status: u16,
    row_count: u64,
    buf: &mut [u8],
) -> i64
    ensures value { result ≡ built_number (done_reply status row_count) buf.old }
    ensures buf_after { buf.new ≡ buffer_of (done_reply status row_count) buf.old }
{
    tell(response::build_done_token_with_status(status, row_count, buf))
}

#[unsafe(no_mangle)]
pub extern "C" fn station_build_done_token(row_count: u64, buf: &mut [u8]) -> i64
    ensures value { result ≡ built_number (done_reply 0x0000 row_count) buf.old }
    ensures buf_after { buf.new ≡ buffer_of (done_reply 0x0000 row_count) buf.old }
{
    tell(response::build_done_token(row_count, buf))
}

// What answers an attention, and a transaction manager request.
#[unsafe(no_mangle)]
pub extern "C" fn station_build_attention_ack_packet(buf: &mut [u8]) -> i64
    ensures value { result ≡ built_number attention_reply buf.old }
    ensures buf_after { buf.new ≡ buffer_of attention_reply buf.old }
{
    tell(response::build_attention_ack_packet(buf))
}

#[unsafe(no_mangle)]
pub extern "C" fn station_build_transaction_manager_response(
    request_type: u16,
    buf: &mut [u8],
) -> i64
    ensures value { result ≡ built_number (transaction_reply request_type) buf.old }
    ensures buf_after { buf.new ≡ buffer_of (transaction_reply request_type) buf.old }
{
    tell(response::build_transaction_manager_response(request_type, buf))
}

// INFO and ERROR.
#[unsafe(no_mangle)]
pub extern "C" fn station_build_info_token(
    number: u32,
    state: u8,
    severity: u8,
    message: &[u8],
    server_name: &[u8],
    proc_name: &[u8],
    line_number: u32,
    buf: &mut [u8],
) -> i64
    ensures value { result ≡ built_number (info_reply number state severity message.now server_name.now proc_name.now line_number) buf.old }
    ensures buf_after { buf.new ≡ buffer_of (info_reply number state severity message.now server_name.now proc_name.now line_number) buf.old }
{
    tell(response::build_info_token(
        number,
        state,
        severity,
        message,
        server_name,
        proc_name,
        line_number,
        buf,
    ))
}

#[unsafe(no_mangle)]
pub extern "C" fn station_build_leading_error_tokens(
    number: u32,
    severity: u8,
    message: &[u8],
    buf: &mut [u8],
) -> i64
    ensures value { result ≡ built_number (error_tokens_reply 0x0003 number severity message.now) buf.old }
    ensures buf_after { buf.new ≡ buffer_of (error_tokens_reply 0x0003 number severity message.now) buf.old }
{
    tell(response::build_leading_error_tokens(number, severity, message, buf))
}

#[unsafe(no_mangle)]
pub extern "C" fn station_build_terminal_error_tokens(
    number: u32,
    severity: u8,
    message: &[u8],
    buf: &mut [u8],
) -> i64
    ensures value { result ≡ built_number (error_tokens_reply 0x0002 number severity message.now) buf.old }
    ensures buf_after { buf.new ≡ buffer_of (error_tokens_reply 0x0002 number severity message.now) buf.old }
{
    tell(response::build_terminal_error_tokens(number, severity, message, buf))
}

#[unsafe(no_mangle)]
pub extern "C" fn station_build_error_response(message: &[u8], buf: &mut [u8]) -> i64
    ensures value { result ≡ built_number (error_reply message.now) buf.old }
    ensures buf_after { buf.new ≡ buffer_of (error_reply message.now) buf.old }
{
    tell(response::build_error_response(message, buf))
}

// Routes, and the packets of a login that is routed.
#[unsafe(no_mangle)]
pub extern "C" fn station_build_routing_envchange_token(
    redirect_host: &[u8],
    redirect_port: u16,
    buf: &mut [u8],
) -> i64
    ensures value { result ≡ built_number (route_reply redirect_host.now redirect_port) buf.old }
    ensures buf_after { buf.new ≡ buffer_of (route_reply redirect_host.now redirect_port) buf.old }
{
    tell(response::build_routing_envchange_token(redirect_host, redirect_port, buf))
}

#[unsafe(no_mangle)]
pub extern "C" fn station_build_routing_response(
    redirect_host: &[u8],
    redirect_port: u16,
    buf: &mut [u8],
) -> i64
    ensures value { result ≡ built_number (routing_reply redirect_host.now redirect_port) buf.old }
    ensures buf_after { buf.new ≡ buffer_of (routing_reply redirect_host.now redirect_port) buf.old }
{
    tell(response::build_routing_response(redirect_host, redirect_port, buf))
}

#[unsafe(no_mangle)]
pub extern "C" fn station_build_enhanced_routing_envchange_token(
    redirect_host: &[u8],
    redirect_port: u16,
    database: &[u8],
    buf: &mut [u8],
) -> i64
    ensures value { result ≡ built_number (database_route_reply redirect_host.now redirect_port database.now) buf.old }
    ensures buf_after { buf.new ≡ buffer_of (database_route_reply redirect_host.now redirect_port database.now) buf.old }
{
    tell(response::build_enhanced_routing_envchange_token(
        redirect_host,
        redirect_port,
        database,
        buf,
    ))
}

// The acknowledgement of enhanced routing that a number stands for: a byte, and none from 256 on.
#[tactic(auto, unfolding(crate::specs::Builds::ack_of))]
fn acknowledgement(ack: u16) -> Option<u8>
    ensures { result ≡ ack_of ack }
{
    u8::try_from(ack).ok()
}

#[unsafe(no_mangle)]
pub extern "C" fn station_build_routing_login_response(
    redirect_host: &[u8],
    redirect_port: u16,
    routes: &[u8],
    login_ack: bool,
    ack: u16,
    ack_before_routing: bool,
    buf: &mut [u8],
) -> i64
    ensures value { result ≡ built_number (routing_login_reply redirect_host.now redirect_port (records routes.now) login_ack (ack_of ack) ack_before_routing) buf.old }
    ensures buf_after { buf.new ≡ buffer_of (routing_login_reply redirect_host.now redirect_port (records routes.now) login_ack (ack_of ack) ack_before_routing) buf.old }
{
    tell(response::build_routing_login_response(
        redirect_host,
        redirect_port,
        routes,
        login_ack,
        acknowledgement(ack),
        ack_before_routing,
        buf,
    ))
}

// A reply's payload in packets of a size.
#[unsafe(no_mangle)]
pub extern "C" fn station_cut_payload(payload: &[u8], size: usize, buf: &mut [u8]) -> i64
    ensures value { result ≡ cut_number size payload.now (length buf.old) }
    ensures buf_after { buf.new ≡ cut_buffer size payload.now buf.old }
{
    tell(response::cut_payload(payload, size, buf))
}
