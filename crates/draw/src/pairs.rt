// Many steps of the generator at once, as a pair of multiplier and addend (document 02, W7).
ghost use Rattle.std.specs.Prelude.{◌≡◌};
ghost use Rattle.rules.specs.Draw.{skip, applied, composed, pair_of};

use crate::{ADDEND, MULTIPLIER, wrapping_mul};
use rules::Pair;

// The pair of no step, which leaves a state as it is, and that of one.
const NO_STEP: Pair = Pair {
    multiplier: 1,
    addend: 0,
};

const ONE_STEP: Pair = Pair {
    multiplier: MULTIPLIER,
    addend: ADDEND,
};

// What a pair makes of a state.
pub fn applied(p: Pair, s: u32) -> u32
    ensures { result ≡ applied p s }
{
    wrapping_mul(p.multiplier, s).wrapping_add(p.addend)
}

// First p, then q, as one pair.
pub fn composed(p: Pair, q: Pair) -> Pair
    ensures { result ≡ composed p q }
{
    Pair {
        multiplier: wrapping_mul(q.multiplier, p.multiplier),
        addend: applied(q, p.addend),
    }
}

// The pair of m steps: that of half as many, twice, and one step more where m is odd.
#[tactic(auto, using(rules::proofs::Pairs::pairs, crate::proofs::Halving::of_even, crate::proofs::Halving::of_odd))]
pub fn pair_of(m: u32) -> Pair
    ensures { result ≡ pair_of m }
{
    if m == 0 {
        return NO_STEP;
    }
    let half = pair_of(m / 2);
    let even = composed(half, half);
    if m % 2 == 0 {
        even
    } else {
        composed(even, ONE_STEP)
    }
}

// The state after m steps from s.
#[tactic(auto, using(rules::proofs::Pairs::pairs))]
pub fn skip(s: u32, m: u32) -> u32
    ensures { result ≡ skip s m }
{
    applied(pair_of(m), s)
}
