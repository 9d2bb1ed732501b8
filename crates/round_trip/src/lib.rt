// The round trip (document 01, 'What a script emits', 'The reply reader'): what the reply builder writes for a script that fits
// is what the reply reader reads, of one packet and of packets of each size. The theorem is in specs/RoundTrip.antt; `kth_token`
// and `kth_token_in_packets` have it of running code.
#![tactic(auto)]

ghost use Rattle.std.specs.Prelude.{◌≡◌, length, take};
ghost use Rattle.refusals.specs.Refused.{numbered};
ghost use Rattle.result.specs.Built.{built_of, buffer_of, built_in_packets, buffer_in_packets};
ghost use Rattle.reader.specs.Positions.{fresh_position};
ghost use Rattle.reader.specs.Reader.{answer_of};
ghost use Rattle.round_trip.specs.RoundTrip.{single, sized};
ghost use Rattle.round_trip.specs.Running.{numbered_kth, kth_of, ReadBack};

use reader::{Position, Token};
use refusals::Refusal;
use wire::Part;

// What a step of the reader answers: a token, none at the end, or a refusal.
pub type Answer = Result<Option<Token>, Refusal>;

// The k-th answer, from 0, of a run over the packets of a buffer's first bytes.
fn answer_in(buf: &[u8], len: usize, k: usize) -> Answer
    ensures { numbered result ≡ answer_of k (take len buf.now) fresh_position }
{
    let packets = wire::part_of(buf, Part { start: 0, len });
    let mut position = Position::fresh();
    // Its number has a name since the invariant of the proof counts by it.
    for i in 0..k {
        position = position.step(packets).next;
    }
    position.step(packets).answer
}

// The k-th answer, from 0, of a run over a script's reply, which is built into the lent buffer. Where the script is accepted
// and fits, it tells the k-th token that the script emits, in every field, and the end from then on.
pub fn kth_token(script: &[u8], buf: &mut [u8], k: usize) -> Result<Answer, Refusal>
    ensures value { numbered_kth result ≡ kth_of (built_of script.now (length buf.old)) (buffer_of script.now buf.old) k }
    ensures buf_after { buf.new ≡ buffer_of script.now buf.old }
    ensures read_back { ReadBack single script.now buf.old k (numbered_kth result) }
{
    let len = result::build_query_results(script, buf)?;
    Ok(answer_in(buf, len, k))
}

// The same over a script's reply in packets of a size.
pub fn kth_token_in_packets(
    script: &[u8],
    size: usize,
    buf: &mut [u8],
    k: usize,
) -> Result<Answer, Refusal>
    ensures value { numbered_kth result ≡ kth_of (built_in_packets size script.now (length buf.old)) (buffer_in_packets size script.now buf.old) k }
    ensures buf_after { buf.new ≡ buffer_in_packets size script.now buf.old }
    ensures read_back { ReadBack (sized size) script.now buf.old k (numbered_kth result) }
{
    let len = result::build_query_results_in_packets(script, size, buf)?;
    Ok(answer_in(buf, len, k))
}
