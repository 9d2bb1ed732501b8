// How an export ends: with its number and its slots, or with a refusal.
ghost use Rattle.std.specs.Prelude.{◌≡◌, ℕ, Ok, cond, ◌<◌, ◌^◌};
ghost use Rattle.refusals.specs.Refused.{numbered};
ghost use Rattle.station.specs.Answer.{answers, answers_part, refuses, number_of, answer_of, slots_of, built_outcome};

use refusals::Refusal;
use wire::Part;

// The last step of an export that has slots, after all its other refusals: its number, and the values of the first slots. A loop, since
// `copy_from_slice` would be a call of `memmove`.
pub(crate) fn answered(out: &mut [u64], number: usize, values: &[u64]) -> i64
    requires { number < 2 ^ 63 }
    ensures value { result ≡ answer_of (answers number values.now) out.old }
    ensures out_after { out.new ≡ slots_of (answers number values.now) out.old }
{
    if out.len() < values.len() {
        return refused(Refusal::BufferTooShort.number());
    }
    for (i, value) in values.iter().enumerate() {
        out[i] = *value;
    }
    number as i64
}

// The same of a part: its start and its length.
pub(crate) fn answered_part(out: &mut [u64], number: usize, part: Part) -> i64
    requires { number < 2 ^ 63 }
    ensures value { result ≡ answer_of (answers_part number part) out.old }
    ensures out_after { out.new ≡ slots_of (answers_part number part) out.old }
{
    answered(out, number, &[part.start as u64, part.len as u64])
}

// A refusal's answer.
pub(crate) fn refused(number: u8) -> i64
    ensures { result ≡ number_of (refuses number) }
{
    -(number as i64)
}

// How an export without slots ends: with a count, or with a refusal.
pub(crate) fn tell(built: Result<usize, Refusal>) -> i64
    requires { (n : ℕ) → built ≡ Ok n → n < 2 ^ 63 }
    ensures { result ≡ number_of (built_outcome (numbered built)) }
{
    match built {
        Ok(n) => n as i64,
        Err(r) => refused(r.number()),
    }
}

// The value of a test: 1 or 0.
pub(crate) fn flag(test: bool) -> u64
    ensures { result ≡ cond test 1 0 }
{
    u64::from(test)
}
