// What a call costs by the room of its queue, for the benchmark: reads C and a number of turns, opens a station
// with room for C entries, and ticks and takes once a turn. Prints how many events were raised.
#![tactic(auto)]

use rules::{Plan, Station};
use std::io;
use std::io::Read;

// The words of the largest queue, which has 4,096 entries of three.
const MOST_WORDS: usize = 12_288;

// A decimal number, and the text behind it; no more than nine digits are read.
fn number(text: &[u8]) -> (u32, &[u8]) {
    let mut value = 0;
    for (at, b) in text.iter().enumerate() {
        match char::from(*b).to_digit(10) {
            Some(digit) if value < 100_000_000 => value = 10 * value + digit,
            _ => return (value, &text[at..]),
        }
    }
    (value, &[])
}

// Turns of a tick and a take.
fn turns(opened: Station, q: &mut [u32], count: u32) -> u32 {
    let mut s = opened;
    for _ in 0..count {
        s = station::tick(s, q).station;
        s = station::take(s, q).station;
    }
    s.numbers.next
}

fn measured(q: &mut [u32], count: u32) -> u32 {
    let plan = Plan {
        kind: 1,
        n: 2,
        i: 10000,
        s: 100000,
        x: 0,
        period: 0,
    };
    turns(station::open(plan, 1, q).station, q, count)
}

// What one read brings is all that is looked at, so 64 bytes are enough.
fn main(rt: HostRuntime) -> io::Result<()> {
    let mut text = [0u8; 64];
    let n = rt.stdin().read(&mut text)?;
    let (room, rest) = number(&text[..n]);
    let Some((_, rest)) = rest.split_first() else {
        return Ok(());
    };
    let (count, _) = number(rest);
    let mut words = [0u32; MOST_WORDS];
    let Some(queue) = words.get_mut(..3 * room as usize) else {
        return Ok(());
    };
    let next = measured(queue, count);
    print!(rt; "{next}")
}
