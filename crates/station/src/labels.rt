// Event labels for the unit's panel: the exports of `windows1252`.
ghost use Rattle.std.specs.Prelude.{◌≡◌};
ghost use Rattle.station.specs.Answer.{answer_of, slots_of};
ghost use Rattle.station.specs.Labels.{read_label_call, write_label_call};

use crate::slots::refused;

// The answer for a value that is null: no text has so many bytes.
const NULL_LABEL: i64 = 4294967296;

// The bytes written of a value's text at the front of buf, or NULL_LABEL.
#[unsafe(no_mangle)]
pub extern "C" fn station_read_label(value: &[u8], buf: &mut [u8]) -> i64
    ensures value { result ≡ answer_of (read_label_call value.now) buf.old }
    ensures buf_after { buf.new ≡ slots_of (read_label_call value.now) buf.old }
{
    match windows1252::read_value(value, buf) {
        Ok(Some(length)) => length as i64,
        Ok(None) => NULL_LABEL,
        Err(refusal) => refused(refusal.number()),
    }
}

// The bytes written of a text's value at the front of buf.
#[unsafe(no_mangle)]
pub extern "C" fn station_write_label(text: &[u8], buf: &mut [u8]) -> i64
    ensures value { result ≡ answer_of (write_label_call text.now) buf.old }
    ensures buf_after { buf.new ≡ slots_of (write_label_call text.now) buf.old }
{
    match windows1252::write_value(text, buf) {
        Ok(length) => length as i64,
        Err(refusal) => refused(refusal.number()),
    }
}
