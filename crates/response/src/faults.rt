// What refuses a reply before a byte is written: text arguments and sizes.
ghost use Rattle.std.specs.Prelude.{◌≡◌, cond, [], ◌∷◌, ◌+◌, ◌≤◌, length};
ghost use Rattle.refusals.specs.Refused.{numbered, refused_by};
ghost use Rattle.wire.specs.Fields.{flat};
ghost use Rattle.script.specs.Records.{records};
ghost use Rattle.response.specs.Answer.{first_of, refusal_of};
ghost use Rattle.text.specs.Arguments.{text_fault};
ghost use Rattle.token.specs.Names.{name_fault};
ghost use Rattle.response.specs.Login.{login_ack_token, fedauth_info};
ghost use Rattle.response.specs.Lists.{routes_fault};
ghost use Rattle.response.specs.Inner.{capped, route_size, all_sizes, measured};
ghost use Rattle.response.specs.Replies.{routing_ack};

use crate::lists::{Routes, measure_records};
use crate::put::LOGIN_ACK;
use refusals::Refusal;
use text::text_fault;
use token::name_fault;

const MOST_BYTES: usize = 65535;

// The refusal of a reply of a size, after those of its arguments: 17, then 20.
#[tactic(auto, unfolding(crate::specs::Answer::refusal_of, crate::specs::Answer::first_of))]
pub(crate) fn refusal(size: usize, room: usize) -> Result<(), Refusal>
    ensures { refused_by result ≡ refusal_of 0 size room }
{
    if MOST_BYTES < size {
        return Err(Refusal::ResultTooLong);
    }
    if room < size {
        return Err(Refusal::BufferTooShort);
    }
    Ok(())
}

// A size as far as it counts: one over the most bytes refuses, however large it is, so sums of such sizes do not wrap.
pub(crate) fn capped(n: usize) -> usize
    ensures { result ≡ capped n }
{
    n.min(MOST_BYTES + 1)
}

// The refusal of two text arguments.
pub(crate) fn texts_fault(a: &[u8], b: &[u8]) -> Result<(), Refusal>
    ensures { refused_by result ≡ first_of (text_fault a.now ∷ text_fault b.now ∷ []) }
{
    text_fault(a)?;
    text_fault(b)
}

// The refusal of an info's texts.
pub(crate) fn info_fault(message: &[u8], server: &[u8], procedure: &[u8]) -> Result<(), Refusal>
    ensures { refused_by result ≡ first_of (text_fault message.now ∷ text_fault server.now ∷ text_fault procedure.now ∷ name_fault server.now ∷ name_fault procedure.now ∷ []) }
{
    text_fault(message)?;
    texts_fault(server, procedure)?;
    name_fault(server)?;
    name_fault(procedure)
}

// The size of a list of routes, or the refusal of their host or of one of them.
pub(crate) fn measure_routing(routes: &[u8], to: &Routes) -> Result<usize, Refusal>
    ensures { numbered result ≡ measured (first_of (text_fault to.now.host.now ∷ routes_fault (records routes.now) ∷ [])) (all_sizes (route_size to.now.host.now) (records routes.now)) }
{
    text_fault(to.host)?;
    measure_records(routes, to)
}

// The size of FEDAUTHINFO without its texts.
const FEDAUTH_INFO_SIZE: usize = 27;

// The size of FEDAUTHINFO, as far as it counts.
pub(crate) fn fedauth_info_size(sts_url: &[u8], spn: &[u8]) -> usize
    ensures { result ≡ capped (length (flat (fedauth_info sts_url.now spn.now))) }
{
    capped(FEDAUTH_INFO_SIZE + capped(sts_url.len()) + capped(spn.len()))
}

// The size of an acknowledgement of enhanced routing.
fn routing_ack_size(ack: Option<u8>) -> usize
    ensures { (result ≡ length (routing_ack ack)) × (result ≤ 8) }
{
    match ack {
        Some(_) => 8,
        None => 0,
    }
}

// The size of the acknowledgements that a login which is routed gets, wherever they stand.
pub(crate) fn login_size(login_ack: bool, ack: Option<u8>) -> usize
    ensures { (result ≡ length (cond login_ack login_ack_token []) + length (routing_ack ack)) × (result ≤ 98) }
{
    let routing = routing_ack_size(ack);
    if login_ack {
        LOGIN_ACK.len() + routing
    } else {
        routing
    }
}
