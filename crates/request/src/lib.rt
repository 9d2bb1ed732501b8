// Requests of a client: SQL batches, transaction manager requests, the transaction descriptor among their headers, and
// federated authentication tokens. Any bytes are answered; a refusal is its number in document 01.
#![tactic(auto)]

ghost use Rattle.std.specs.Prelude.{◌≡◌, ◌≤◌, length};
ghost use Rattle.refusals.specs.Refused.{numbered};
ghost use Rattle.request.specs.Headers.{all_headers};
ghost use Rattle.request.specs.Batch.{batch_text, sql_batch};
ghost use Rattle.request.specs.Transaction.{transaction_request, descriptor_in, transaction_descriptor};
ghost use Rattle.request.specs.FedAuth.{fed_auth_token};

use refusals::Refusal;
use wire::Part;

// The type of a transaction descriptor header (MS-TDS 2.2.5.3.2).
const HEADER_TYPE_TRANSACTION_DESCRIPTOR: u16 = 2;

// Its length: its own 4 bytes, the type, the descriptor and the count.
const TRANSACTION_DESCRIPTOR_LENGTH: usize = 18;

// Why a request has no whole headers block.
#[derive(Clone, Copy, Debug, PartialEq, Eq)]
pub enum HeadersFault {
    // The request has no four bytes for its length.
    Short,
    // Its length is 0 to 3, so that it cannot hold its own four bytes.
    TooSmall,
    // Its length is more than the request has.
    PastEnd,
}

// The transaction descriptor and the count of outstanding requests.
#[derive(Clone, Copy, Debug, PartialEq, Eq)]
pub struct Descriptor {
    pub descriptor: u64,
    pub count: u32,
}

// The length of the headers block, for every request that begins with one.
#[tactic(auto, unfolding(crate::specs::Headers::all_headers))]
pub fn all_headers(body: &[u8]) -> Result<usize, HeadersFault>
    ensures { result ≡ all_headers body.now }
{
    if body.len() < 4 {
        return Err(HeadersFault::Short);
    }
    let len = wire::get_u32_le(body, 0) as usize;
    if len < 4 {
        return Err(HeadersFault::TooSmall);
    }
    if body.len() < len {
        return Err(HeadersFault::PastEnd);
    }
    Ok(len)
}

// The text of a batch as a part of it, without white space at its ends.
#[tactic(auto, using(crate::proofs::Blocks::block_in), unfolding(crate::specs::Batch::sql_batch))]
pub fn parse_sql_batch(body: &[u8]) -> Result<Part, Refusal>
    ensures { numbered result ≡ sql_batch body.now }
{
    if body.is_empty() {
        return Err(Refusal::BatchEmpty);
    }
    match all_headers(body) {
        Err(HeadersFault::Short) => Err(Refusal::BatchTooShort),
        Err(HeadersFault::TooSmall) => Err(Refusal::HeadersTooSmall),
        Err(HeadersFault::PastEnd) => Err(Refusal::HeadersPastEnd),
        Ok(at) => batch_text(body, at),
    }
}

// The text from a place on. An odd last byte goes first, then the text is tested, then trimmed.
fn batch_text(body: &[u8], at: usize) -> Result<Part, Refusal>
    requires { at ≤ length body.now }
    ensures { numbered result ≡ batch_text body.now at }
{
    let rest = &body[at..];
    let even = 2 * text::units(rest);
    let sql = &rest[..even];
    if !text::is_well_formed(sql) {
        return Err(Refusal::BatchNotUtf16);
    }
    let part = text::trimmed(sql);
    Ok(Part {
        start: at + part.start,
        len: part.len,
    })
}

// The type of a transaction manager request, as MS-TDS numbers them, which stands after the headers.
#[tactic(auto, unfolding(crate::specs::Transaction::transaction_request))]
pub fn parse_transaction_manager_request(body: &[u8]) -> Result<u16, Refusal>
    ensures { numbered result ≡ transaction_request body.now }
{
    match all_headers(body) {
        Err(HeadersFault::Short) => Err(Refusal::NoTransactionType),
        Err(HeadersFault::TooSmall) => Err(Refusal::HeadersTooSmall),
        Err(HeadersFault::PastEnd) => Err(Refusal::NoTransactionType),
        Ok(at) => {
            if wire::left(body, at) < 2 {
                return Err(Refusal::NoTransactionType);
            }
            Ok(wire::get_u16_le(body, at))
        }
    }
}

// The transaction descriptor header of a request, if one is present.
#[tactic(auto, using(crate::proofs::Blocks::block_in), unfolding(crate::specs::Transaction::transaction_descriptor))]
pub fn parse_transaction_descriptor_header(body: &[u8]) -> Option<Descriptor>
    ensures { result ≡ transaction_descriptor body.now }
{
    match all_headers(body) {
        Err(_) => None,
        Ok(end) => descriptor_in(&body[4..end]),
    }
}

// The first transaction descriptor header of a block; one that is too short is passed over.
fn descriptor_in(block: &[u8]) -> Option<Descriptor>
    ensures { result ≡ descriptor_in 0 block.now }
{
    let mut at: usize = 0;
    while 6 <= block.len() - at {
        let len = wire::get_u32_le(block, at) as usize;
        let kind = wire::get_u16_le(block, at + 4);
        if len < 6 {
            return None;
        }
        if block.len() - at < len {
            return None;
        }
        if (kind == HEADER_TYPE_TRANSACTION_DESCRIPTOR) & (TRANSACTION_DESCRIPTOR_LENGTH <= len) {
            return Some(Descriptor {
                descriptor: wire::get_u64_le(block, at + 6),
                count: wire::get_u32_le(block, at + 14),
            });
        }
        at += len;
    }
    None
}

// The token of a token message as a part of the packet's payload.
#[tactic(auto, unfolding(crate::specs::FedAuth::fed_auth_token))]
pub fn parse_fedauth_token(payload: &[u8]) -> Result<Part, Refusal>
    ensures { numbered result ≡ fed_auth_token payload.now }
{
    if payload.len() < 8 {
        return Err(Refusal::TokenTooShort);
    }
    let outer = wire::get_u32_le(payload, 0) as usize;
    if outer != payload.len() - 4 {
        return Err(Refusal::OuterLength);
    }
    let inner = wire::get_u32_le(payload, 4) as usize;
    if inner != payload.len() - 8 {
        return Err(Refusal::InnerLength);
    }
    Ok(Part {
        start: 8,
        len: inner,
    })
}
