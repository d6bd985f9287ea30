// An answer's five values, and its line.
ghost use Rattle.std.specs.Prelude.{◌≡◌};
ghost use Rattle.rules.specs.Sound.{one};
ghost use Rattle.rules.specs.Calls.{refusal_number, values, answer_values};
ghost use Rattle.rules.specs.Frames.{printed, answer_line};

use crate::digits::{eight_digits, two_digits};
use rules::{Answer, KIND_STEP, Refusal, Values};

// What does not apply is 0.
const ZEROS: Values = Values {
    refusal: 0,
    kind: 0,
    number: 0,
    unit: 0,
    value: 0,
};

// Kind 9 is a marker's. Both types are of `rules`, so that this is no From.
pub fn answer_values(a: Result<Answer, Refusal>) -> Values
    ensures { result ≡ answer_values a }
{
    match a {
        Err(r) => Values {
            refusal: r as u8,
            ..ZEROS
        },
        Ok(Answer::Done | Answer::Nothing) => ZEROS,
        Ok(Answer::Ordered(inspect)) => Values {
            value: u32::from(inspect),
            ..ZEROS
        },
        Ok(Answer::Held(e)) => Values {
            kind: (e.head / KIND_STEP) as u8,
            number: e.head % KIND_STEP,
            unit: e.unit,
            value: e.value,
            ..ZEROS
        },
        Ok(Answer::Gap { first, lost, count }) => Values {
            kind: 9,
            number: first,
            unit: lost,
            value: count,
            ..ZEROS
        },
    }
}

// No Display: what is promised is an array of 33 bytes.
#[tactic(auto, unfolding(rules::specs::Frames::printed))]
fn printed(v: Values) -> [u8; 33]
    ensures { result ≡ printed v }
{
    let r = two_digits(v.refusal);
    let k = two_digits(v.kind);
    let a = eight_digits(v.number);
    let b = eight_digits(v.unit);
    let c = eight_digits(v.value);
    [
        r[0], r[1], b' ', k[0], k[1], b' ', a[0], a[1], a[2], a[3], a[4], a[5], a[6], a[7], b' ',
        b[0], b[1], b[2], b[3], b[4], b[5], b[6], b[7], b' ', c[0], c[1], c[2], c[3], c[4], c[5],
        c[6], c[7], b'\n',
    ]
}

// The line of an answer that is done, or of one whose only value is a flag. Most answers are such a line or differ from it in a digit,
// and nothing more is computed for them.
#[tactic(auto, unfolding(rules::specs::Frames::printed))]
fn flag_line(flag: bool) -> [u8; 33]
    ensures { result ≡ printed (values 0 0 0 0 (one flag)) }
{
    let mut line = *b"00 00 00000000 00000000 00000000\n";
    if flag {
        line[31] = b'1';
    }
    line
}

// No refusal has a number over 15: its first digit is 0.
#[tactic(auto, unfolding(rules::specs::Frames::printed))]
pub fn refusal_line(r: Refusal) -> [u8; 33]
    ensures { result ≡ answer_line (Err r) }
{
    let mut line = flag_line(false);
    line[1] = two_digits(r as u8)[1];
    line
}

// In place where a line is answered: a call of it took 25 instructions more.
#[inline(always)]
pub fn answer_line(a: Result<Answer, Refusal>) -> [u8; 33]
    ensures { result ≡ answer_line a }
{
    match a {
        Err(r) => refusal_line(r),
        Ok(Answer::Done | Answer::Nothing) => flag_line(false),
        Ok(Answer::Ordered(inspect)) => flag_line(inspect),
        _ => printed(answer_values(a)),
    }
}
