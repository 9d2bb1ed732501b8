// Packets of a reply: the export of `payload`'s joining, for a caller whose part crosses packets.
ghost use Rattle.std.specs.Prelude.{◌≡◌};
ghost use Rattle.station.specs.Answer.{answer_of, slots_of};
ghost use Rattle.station.specs.Packets.{payload_call};

use crate::slots::refused;

// The bytes written of the packets' payload, joined at the front of buf.
#[unsafe(no_mangle)]
pub extern "C" fn station_payload(packets: &[u8], buf: &mut [u8]) -> i64
    ensures value { result ≡ answer_of (payload_call packets.now) buf.old }
    ensures buf_after { buf.new ≡ slots_of (payload_call packets.now) buf.old }
{
    match payload::joining::join(packets, buf) {
        Ok(length) => length as i64,
        Err(refusal) => refused(refusal.number()),
    }
}
