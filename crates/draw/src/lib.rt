// The blocks of sampling, the generator, and the place that it chooses in a block (document 01, "Sampling"). Nothing is multiplied to
// more than 32 bits: on a controller that would be a routine of its own (document 02, W3).
#![tactic(auto)]

mod pairs;

ghost use Rattle.std.specs.Prelude.{◌≡◌, ◌+◌, ◌*◌, ◌/◌, ◌%◌, ◌^◌, ◌≤◌};
ghost use Rattle.rules.specs.Draw.{step, place};
ghost use Rattle.rules.specs.Sampling.{block_length, next_place};

pub use pairs::{applied, composed, pair_of, skip};
use rules::Plan;

// A step is a state times this, and this more.
const MULTIPLIER: u32 = 1664525;

const ADDEND: u32 = 1013904223;

// L, of any n and level.
#[tactic(auto, using(std::proofs::lemmas::Bool::Decides::nat_tests), unfolding(rules::specs::Sampling::block_length))]
pub fn block_length(p: Plan, level: u32) -> u64
    ensures { result ≡ block_length p level }
{
    let n = p.n as u64;
    let twice = n + n;
    match level {
        0 => n,
        1 => twice,
        _ => twice + twice,
    }
}

// The place after this one, counted round a block.
#[tactic(auto, using(std::proofs::lemmas::Bool::Decides::nat_tests), unfolding(rules::specs::Sampling::next_place))]
pub fn next_place(len: u64, at: u32) -> u64
    ensures { (result ≡ next_place len at) × (result ≤ at + 1) }
{
    let next = (at as u64) + 1;
    if next == len { 0 } else { next }
}

// The upper and the lower 16 bits of a number.
fn high_half(x: u32) -> u16
    ensures { result ≡ x / 65536 }
{
    (x / 65536) as u16
}

fn low_half(x: u32) -> u16
    ensures { result ≡ x % 65536 }
{
    (x % 65536) as u16
}

// The whole product of two halves.
fn half_product(a: u16, b: u16) -> u32
    ensures { (result ≡ a * b) × (result ≤ 65535 * 65535) }
{
    (a as u32) * (b as u32)
}

// a * b, wrapping at 2^32: the product of the high halves lies above that, and of the two mixed ones only the low halves lie below.
// The library's `wrapping_mul` would do: of the step it makes one product, where `tests/run --only products` holds two and three, and the
// must-fail edits draws_1 to draws_5 bend the halves.
#[tactic(auto, using(crate::proofs::Halves::wrapped))]
fn wrapping_mul(a: u32, b: u32) -> u32
    ensures { result ≡ a * b % 2 ^ 32 }
{
    let high_low = half_product(high_half(a), low_half(b)) % 65536;
    let low_high = half_product(low_half(a), high_half(b)) % 65536;
    let low_low = half_product(low_half(a), low_half(b));
    low_low.wrapping_add((high_low + low_high) % 65536 * 65536)
}

// The state of the generator after s.
pub fn step(s: u32) -> u32
    ensures { result ≡ step s }
{
    wrapping_mul(MULTIPLIER, s).wrapping_add(ADDEND)
}

// The place that the state s chooses in a block of len, counted from 0: of the low half's product only the carry counts. The length is
// of 16 bits, so that two products do: of the four for any length a compiler makes a wide one again.
#[tactic(auto, using(crate::proofs::Halves::above))]
pub fn place(s: u32, len: u16) -> u32
    ensures { result ≡ place s len }
{
    let carry = half_product(low_half(s), len) / 65536;
    (half_product(high_half(s), len) + carry) / 65536
}
