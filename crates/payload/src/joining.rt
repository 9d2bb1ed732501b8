// The payload of a reply's packets joined in a lent buffer, for a caller whose part crosses packets: the headers are walked over
// twice, once to test and measure, once to copy.
ghost use Rattle.std.specs.Prelude.{◌≡◌, true, ◌+◌, ◌-◌, ◌*◌, ◌≤◌, length, take, drop};
ghost use Rattle.wire.specs.Over.{overwrite};
ghost use Rattle.refusals.specs.Refused.{numbered};
ghost use Rattle.payload.specs.Packets.{packets_in, payload_of};
ghost use Rattle.payload.specs.Stopped.{stop_by};
ghost use Rattle.payload.specs.Frames.{lies};
ghost use Rattle.payload.specs.Join.{fitted_in, joined_by, joined_of, joined_buffer};

use crate::frames::{Frame, Stop, first, onward};
use refusals::Refusal;

// The payload of the packets that end as they should, at the buffer's front, and how many bytes it has; or what stops the
// packets, then 20 where the buffer is too short. A refusal leaves the buffer as it was.
pub fn join(lent: &[u8], buf: &mut [u8]) -> Result<usize, Refusal>
    ensures value { numbered result ≡ joined_of lent.now (length buf.old) }
    ensures buf_after { buf.new ≡ joined_buffer lent.now buf.old }
{
    let n = measured(lent, buf.len())?;
    copy_payload(lent, buf);
    Ok(n)
}

// What joining answers where so many bytes are lent for the payload.
fn measured(lent: &[u8], room: usize) -> Result<usize, Refusal>
    ensures { numbered result ≡ joined_of lent.now room }
{
    let mut end = 0;
    let mut packet = first(lent);
    loop {
        match packet {
            Ok(frame) => {
                end = frame.end;
                packet = onward(lent, frame);
            },
            Err(stop) => return ended(stop, end, room),
        }
    }
}

// A payload of n bytes, by what stands after its packets, where so many bytes are lent for it.
fn ended(stop: Stop, n: usize, room: usize) -> Result<usize, Refusal>
    ensures { numbered result ≡ joined_by (stop_by stop) n room }
{
    match stop {
        Stop::Over => fitted(n, room),
        Stop::Broken => Err(Refusal::EndBitWrong),
        Stop::Bad(refusal) => Err(refusal),
    }
}

// A payload of n bytes that is whole, where so many bytes are lent for it.
fn fitted(n: usize, room: usize) -> Result<usize, Refusal>
    ensures { numbered result ≡ fitted_in n room }
{
    if room < n {
        return Err(Refusal::BufferTooShort);
    }
    Ok(n)
}

// The payload at the buffer's front, packet by packet; what has no room there is left out.
fn copy_payload(lent: &[u8], buf: &mut [u8])
    ensures { buf.new ≡ overwrite buf.old 0 (payload_of (packets_in lent.now)) }
{
    let mut packet = first(lent);
    while let Ok(frame) = packet {
        copy_packet(lent, frame, buf);
        packet = onward(lent, frame);
    }
}

// The payload of a frame's packet, at its place of the buffer.
#[tactic(auto, using(crate::proofs::Onto::lying))]
fn copy_packet(lent: &[u8], frame: Frame, buf: &mut [u8])
    requires { (lies lent.now frame ≡ true) × (frame.base ≤ frame.end) }
    ensures { buf.new ≡ overwrite buf.old frame.base (take (frame.end - frame.base) (drop (frame.base + 8 * frame.number) lent.now)) }
{
    let start = frame.base + 8 * frame.number;
    let end = start + (frame.end - frame.base);
    wire::put_slice(buf, frame.base, &lent[start..end]);
}
