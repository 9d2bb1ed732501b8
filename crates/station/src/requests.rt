// Requests of a client: SQL batches, transaction manager requests, the transaction descriptor among their headers,
// federated authentication tokens, and stored captures of requests.
ghost use Rattle.std.specs.Prelude.{◌≡◌};
ghost use Rattle.station.specs.Answer.{number_of, answer_of, slots_of};
ghost use Rattle.station.specs.Requests.{batch_call, transaction_call, descriptor_call, token_call, capture_call};

use crate::slots::{answered, answered_part, refused};
use request::Descriptor;

// 0: start and length of a batch's text.
#[unsafe(no_mangle)]
pub extern "C" fn station_parse_sql_batch(body: &[u8], out: &mut [u64]) -> i64
    ensures value { result ≡ answer_of (batch_call body.now) out.old }
    ensures out_after { out.new ≡ slots_of (batch_call body.now) out.old }
{
    match request::parse_sql_batch(body) {
        Ok(part) => answered_part(out, 0, part),
        Err(refusal) => refused(refusal.number()),
    }
}

// The type of a transaction manager request.
#[unsafe(no_mangle)]
pub extern "C" fn station_parse_transaction_manager_request(body: &[u8]) -> i64
    ensures { result ≡ number_of (transaction_call body.now) }
{
    match request::parse_transaction_manager_request(body) {
        Ok(kind) => kind as i64,
        Err(refusal) => refused(refusal.number()),
    }
}

// 1: the transaction descriptor and the count of outstanding requests. 0: there is none, and no slot is asked for.
#[unsafe(no_mangle)]
pub extern "C" fn station_parse_transaction_descriptor_header(body: &[u8], out: &mut [u64]) -> i64
    ensures value { result ≡ answer_of (descriptor_call body.now) out.old }
    ensures out_after { out.new ≡ slots_of (descriptor_call body.now) out.old }
{
    match request::parse_transaction_descriptor_header(body) {
        Some(Descriptor { descriptor, count }) => answered(out, 1, &[descriptor, count as u64]),
        None => 0,
    }
}

// 0: start and length of the token of a token message.
#[unsafe(no_mangle)]
pub extern "C" fn station_parse_fedauth_token(payload: &[u8], out: &mut [u64]) -> i64
    ensures value { result ≡ answer_of (token_call payload.now) out.old }
    ensures out_after { out.new ≡ slots_of (token_call payload.now) out.old }
{
    match request::parse_fedauth_token(payload) {
        Ok(part) => answered_part(out, 0, part),
        Err(refusal) => refused(refusal.number()),
    }
}

// How many records of a capture have a headers length that cannot be, with their numbers in the first slots.
#[unsafe(no_mangle)]
pub extern "C" fn station_capture_marks(capture: &[u8], out: &mut [u64]) -> i64
    ensures value { result ≡ answer_of (capture_call capture.now) out.old }
    ensures out_after { out.new ≡ slots_of (capture_call capture.now) out.old }
{
    match capture_marks::marks(capture, out) {
        Ok(count) => count as i64,
        Err(refusal) => refused(refusal.number()),
    }
}
