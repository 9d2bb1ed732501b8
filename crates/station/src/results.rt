// Replies to scripts: the reply builder under its four names and in packets, the room for both, and the fit check.
ghost use Rattle.std.specs.Prelude.{◌≡◌, length};
ghost use Rattle.result.specs.Built.{buffer_of, buffer_in_packets};
ghost use Rattle.station.specs.Answer.{number_of, answer_of, slots_of};
ghost use Rattle.station.specs.Results.{built_call, in_packets_call, room_call, room_in_packets_call, misfit_outcome, fit_call};

use crate::slots::{answered, refused, tell};
use fit::Misfit;

// The bytes written of a script's reply.
#[unsafe(no_mangle)]
pub extern "C" fn station_build_query_results(script: &[u8], buf: &mut [u8]) -> i64
    ensures value { result ≡ number_of (built_call script.now (length buf.old)) }
    ensures buf_after { buf.new ≡ buffer_of script.now buf.old }
{
    tell(result::build_query_results(script, buf))
}

// The Rust's narrowings.
#[unsafe(no_mangle)]
pub extern "C" fn station_build_query_result(script: &[u8], buf: &mut [u8]) -> i64
    ensures value { result ≡ number_of (built_call script.now (length buf.old)) }
    ensures buf_after { buf.new ≡ buffer_of script.now buf.old }
{
    station_build_query_results(script, buf)
}

#[unsafe(no_mangle)]
pub extern "C" fn station_build_query_result_with_trailing_info(
    script: &[u8],
    buf: &mut [u8],
) -> i64
    ensures value { result ≡ number_of (built_call script.now (length buf.old)) }
    ensures buf_after { buf.new ≡ buffer_of script.now buf.old }
{
    station_build_query_results(script, buf)
}

#[unsafe(no_mangle)]
pub extern "C" fn station_build_query_result_with_extras(script: &[u8], buf: &mut [u8]) -> i64
    ensures value { result ≡ number_of (built_call script.now (length buf.old)) }
    ensures buf_after { buf.new ≡ buffer_of script.now buf.old }
{
    station_build_query_results(script, buf)
}

// The bytes written of a script's reply in packets of a size.
#[unsafe(no_mangle)]
pub extern "C" fn station_build_query_results_in_packets(
    script: &[u8],
    size: usize,
    buf: &mut [u8],
) -> i64
    ensures value { result ≡ number_of (in_packets_call size script.now (length buf.old)) }
    ensures buf_after { buf.new ≡ buffer_in_packets size script.now buf.old }
{
    tell(result::build_query_results_in_packets(script, size, buf))
}

// Room to lend for a script's reply: exactly its length.
#[unsafe(no_mangle)]
pub extern "C" fn station_room(script: &[u8]) -> i64
    ensures { result ≡ number_of (room_call script.now) }
{
    tell(result::room_estimate(script))
}

// Room to lend for it in packets of a size: exactly their sum, headers included.
#[unsafe(no_mangle)]
pub extern "C" fn station_room_in_packets(script: &[u8], size: usize) -> i64
    ensures { result ≡ number_of (room_in_packets_call size script.now) }
{
    tell(result::room_in_packets(script, size))
}

// 1: kind (1 classification, 2 column, 3 cell), set, row and column of the first misfit, 0 where there is none. 0: the script
// fits, and no slot is asked for.
#[unsafe(no_mangle)]
pub extern "C" fn station_fit(script: &[u8], out: &mut [u64]) -> i64
    ensures value { result ≡ answer_of (fit_call script.now) out.old }
    ensures out_after { out.new ≡ slots_of (fit_call script.now) out.old }
{
    match fit::check(script) {
        Ok(None) => 0,
        Ok(Some(misfit)) => tell_misfit(misfit, out),
        Err(refusal) => refused(refusal.number()),
    }
}

fn tell_misfit(misfit: Misfit, out: &mut [u64]) -> i64
    ensures value { result ≡ answer_of (misfit_outcome misfit) out.old }
    ensures out_after { out.new ≡ slots_of (misfit_outcome misfit) out.old }
{
    match misfit {
        Misfit::Classification { set } => answered(out, 1, &[1, set as u64, 0, 0]),
        Misfit::Column { set, column } => answered(out, 1, &[2, set as u64, 0, column as u64]),
        Misfit::Cell { set, row, column } => {
            answered(out, 1, &[3, set as u64, row as u64, column as u64])
        }
    }
}
