// The builders: `build_NAME LENT ARGUMENT..`, so many bytes of a buffer are lent; and `cut_payload LENT PAYLOAD SIZE`. The
// answer is the bytes written, and the rest of the buffer is kept; of a refused call all of it.
use crate::{calls, spaces, told, words};
use refusals::Refusal;

// A builder's answer, or none where no builder has the name.
type Told = Option<Result<usize, Refusal>>;

pub(crate) fn holds(line: &[u8], name: &[u8]) -> bool {
    let mut buf = spaces::patterned();
    let lent = buf.len().min(words::u64_at(line, 1) as usize);
    match build(line, name, &mut buf[..lent]) {
        Some(Ok(len)) => is_written(line, &buf, len),
        Some(Err(refusal)) => is_refused(line, &buf, refusal),
        // No refusal has this number.
        None => words::answer(line) == b"refused 255".as_slice(),
    }
}

pub(crate) fn is_written(line: &[u8], buf: &[u8], len: usize) -> bool {
    if !calls::is_kept(buf, len) {
        return false;
    }
    calls::same_bytes(line, wire::part_of(buf, calls::first(len)))
}

pub(crate) fn is_refused(line: &[u8], buf: &[u8], refusal: Refusal) -> bool {
    if !calls::is_kept(buf, 0) {
        return false;
    }
    let mut out = [0u8; 32];
    let n = told::refused(&mut out, 0, refusal);
    words::answer(line) == wire::part_of(&out, calls::first(n))
}

// What a builder builds: the word of its name after `build_`.
fn built(name: &[u8]) -> &[u8] {
    words::before(&name[6.min(name.len())..], b'_')
}

// Builders by what they build.
fn build(line: &[u8], name: &[u8], buf: &mut [u8]) -> Told {
    if built(name) == b"query".as_slice() {
        return build_result(line, name, buf);
    }
    if name == b"cut_payload".as_slice() {
        return cut(line, buf);
    }
    if built(name) == b"prelogin".as_slice() {
        return build_prelogin(line, name, buf);
    }
    build_fixed(line, name, buf)
}

// Builders that take numbers, or nothing.
fn build_fixed(line: &[u8], name: &[u8], buf: &mut [u8]) -> Told {
    match name {
        b"build_login_ack" => Some(response::build_login_ack(buf)),
        b"build_attention_ack_packet" => Some(response::build_attention_ack_packet(buf)),
        b"build_transaction_manager_response" => {
            let kind = words::u16_at(line, 2);
            Some(response::build_transaction_manager_response(kind, buf))
        }
        b"build_done_token" => Some(response::build_done_token(words::u64_at(line, 2), buf)),
        b"build_done_token_with_status" => Some(response::build_done_token_with_status(
            words::u16_at(line, 2),
            words::u64_at(line, 3),
            buf,
        )),
        _ => build_ack(line, name, buf),
    }
}

// Replies to scripts: in packets, and as one packet under the four names of the Rust.
fn build_result(line: &[u8], name: &[u8], buf: &mut [u8]) -> Told {
    if name == b"build_query_results_in_packets".as_slice() {
        return build_packets(line, buf);
    }
    let mut space = spaces::zeros();
    let n = words::bytes_at(line, 2, &mut space);
    build_packet(name, wire::part_of(&space, calls::first(n)), buf)
}

// Those of one packet.
fn build_packet(name: &[u8], script: &[u8], buf: &mut [u8]) -> Told {
    match name {
        b"build_query_results" => Some(result::build_query_results(script, buf)),
        b"build_query_result" => Some(result::build_query_result(script, buf)),
        b"build_query_result_with_trailing_info" => Some(
            result::build_query_result_with_trailing_info(script, buf),
        ),
        b"build_query_result_with_extras" => Some(result::build_query_result_with_extras(
            script, buf,
        )),
        _ => None,
    }
}

// The same in packets of a size: LENT SCRIPT SIZE.
fn build_packets(line: &[u8], buf: &mut [u8]) -> Told {
    let size = words::u64_at(line, 3) as usize;
    let mut space = spaces::zeros();
    let n = words::bytes_at(line, 2, &mut space);
    let script = wire::part_of(&space, calls::first(n));
    Some(result::build_query_results_in_packets(script, size, buf))
}

fn cut(line: &[u8], buf: &mut [u8]) -> Told {
    let size = words::u64_at(line, 3) as usize;
    let mut space = spaces::zeros();
    let n = words::bytes_at(line, 2, &mut space);
    Some(response::cut_payload(wire::part_of(&space, calls::first(n)), size, buf))
}

fn build_prelogin(line: &[u8], name: &[u8], buf: &mut [u8]) -> Told {
    let encryption = words::bool_at(line, 2);
    let fedauth = words::bool_at(line, 3);
    match name {
        b"build_prelogin_response" => Some(response::build_prelogin_response(buf)),
        b"build_prelogin_response_with_encryption" => Some(
            response::build_prelogin_response_with_encryption(encryption, buf),
        ),
        b"build_prelogin_response_with_fedauth" => Some(
            response::build_prelogin_response_with_fedauth(encryption, fedauth, buf),
        ),
        b"build_prelogin_response_with_options" => Some(
            response::build_prelogin_response_with_options(encryption, fedauth, buf),
        ),
        _ => None,
    }
}

// FEATUREEXTACK tokens.
fn build_ack(line: &[u8], name: &[u8], buf: &mut [u8]) -> Told {
    match name {
        b"build_feature_ext_ack_fedauth" => Some(response::build_feature_ext_ack_fedauth(buf)),
        b"build_feature_ext_ack_data_classification" => {
            let version = words::u8_at(line, 2);
            Some(response::build_feature_ext_ack_data_classification(version, buf))
        }
        b"build_feature_ext_ack_enhanced_routing" => {
            let enabled = words::u8_at(line, 2);
            Some(response::build_feature_ext_ack_enhanced_routing(enabled, buf))
        }
        _ => {
            let mut space = spaces::zeros();
            let n = words::bytes_at(line, 2, &mut space);
            build_first(line, name, wire::part_of(&space, calls::first(n)), buf)
        }
    }
}

// Builders whose first argument is a text or a list.
fn build_first(line: &[u8], name: &[u8], one: &[u8], buf: &mut [u8]) -> Told {
    match name {
        b"build_feature_ext_ack" => Some(response::build_feature_ext_ack(one, buf)),
        b"build_error_response" => Some(response::build_error_response(one, buf)),
        b"build_routing_envchange_token" => Some(response::build_routing_envchange_token(
            one,
            words::u16_at(line, 3),
            buf,
        )),
        b"build_routing_response" => Some(response::build_routing_response(
            one,
            words::u16_at(line, 3),
            buf,
        )),
        _ => build_second(line, name, one, buf),
    }
}

// Builders of two texts, or of a text and a list.
fn build_second(line: &[u8], name: &[u8], one: &[u8], buf: &mut [u8]) -> Told {
    let mut space = spaces::zeros();
    if built(name) == b"fedauth".as_slice() {
        let n = words::bytes_at(line, 3, &mut space);
        return build_fedauth(name, one, wire::part_of(&space, calls::first(n)), buf);
    }
    let n = words::bytes_at(line, 4, &mut space);
    let two = wire::part_of(&space, calls::first(n));
    match name {
        b"build_enhanced_routing_envchange_token" => Some(
            response::build_enhanced_routing_envchange_token(one, words::u16_at(line, 3), two, buf),
        ),
        b"build_routing_login_response" => Some(response::build_routing_login_response(
            one,
            words::u16_at(line, 3),
            two,
            words::bool_at(line, 5),
            acknowledgement(words::u16_at(line, 6)),
            words::bool_at(line, 7),
            buf,
        )),
        _ => build_message(line, name, two, buf),
    }
}

// The acknowledgement of enhanced routing that a number stands for: a byte, and none from 256 on.
fn acknowledgement(ack: u16) -> Option<u8> {
    u8::try_from(ack).ok()
}

fn build_fedauth(name: &[u8], url: &[u8], spn: &[u8], buf: &mut [u8]) -> Told {
    match name {
        b"build_fedauth_challenge_response" => Some(response::build_fedauth_challenge_response(
            url, spn, buf,
        )),
        b"build_fedauth_info_token" => Some(response::build_fedauth_info_token(url, spn, buf)),
        _ => None,
    }
}

// INFO and ERROR tokens; the message of an error is their third argument.
fn build_message(line: &[u8], name: &[u8], message: &[u8], buf: &mut [u8]) -> Told {
    let number = words::u32_at(line, 2);
    let severity = words::u8_at(line, 3);
    match name {
        b"build_leading_error_tokens" => Some(response::build_leading_error_tokens(
            number, severity, message, buf,
        )),
        b"build_terminal_error_tokens" => Some(response::build_terminal_error_tokens(
            number, severity, message, buf,
        )),
        b"build_info_token" => build_info(line, number, buf),
        _ => None,
    }
}

fn build_info(line: &[u8], number: u32, buf: &mut [u8]) -> Told {
    let mut message = spaces::zeros();
    let mut server = spaces::zeros();
    let mut procedure = spaces::zeros();
    let m = words::bytes_at(line, 5, &mut message);
    let s = words::bytes_at(line, 6, &mut server);
    let p = words::bytes_at(line, 7, &mut procedure);
    Some(response::build_info_token(
        number,
        words::u8_at(line, 3),
        words::u8_at(line, 4),
        wire::part_of(&message, calls::first(m)),
        wire::part_of(&server, calls::first(s)),
        wire::part_of(&procedure, calls::first(p)),
        words::u32_at(line, 8),
        buf,
    ))
}
