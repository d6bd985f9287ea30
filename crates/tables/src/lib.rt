// The look-up in the built-in tables (document 01, "Table V" and "Frames").
#![tactic(auto)]

mod figures;

ghost use Rattle.std.specs.Prelude.{◌≡◌, ◌+◌, ◌*◌, ◌≤◌, ◌<◌, SomeIff, IfSome};
ghost use Rattle.rules.specs.Tables.{column, row, letter_row, plan_v, plan_iii_a_4, look_up};

use figures::{AQLS, ENDS, FREQUENCIES, TABLE_III_A_4, TABLE_V_I, TABLE_V_S};
use rules::{CSP_F, CSP_T, HIGHEST_UNIT, Plan};

// A list is searched by its places. A search of its items (`iter`) finds each by a product of 64 bits, and a halving of the sorted one
// (`partition_point`) divides in 64 bits: `tests/run --only products` refuses both (document 02, W3).

// The column of an AQL in Table V, where it is one of the eight.
fn column(aql: u32) -> Option<usize>
    ensures { SomeIff result (column aql < 8) (column aql) }
{
    (0..8).find(|k| aql == AQLS[*k])
}

// The row of N in Table III-A-4: the first that does not end below N.
fn row(period: u32) -> usize
    ensures { (result ≡ row period) × (result ≤ 20) }
{
    (0..20).find(|k| period <= ENDS[*k]).unwrap_or(20)
}

// The row of a letter in Table V: J and K share the last.
#[tactic(auto, using(std::proofs::lemmas::Bool::Decides::nat_tests), unfolding(rules::specs::Tables::letter_row))]
fn letter_row(letter: u32) -> Option<usize>
    ensures { SomeIff result ((1 ≤ letter) × (letter ≤ 11)) (letter_row letter) × IfSome result (λ k. k ≤ 9) }
{
    match letter {
        1..=10 => Some((letter - 1) as usize),
        11 => Some(9),
        _ => None,
    }
}

// The cell so many rows down and so many columns across, in a list of at most 21 rows of eight; multiplied in 32 bits (document 02, W3).
fn cell(down: usize, across: usize) -> usize
    requires { (down ≤ 20) × (across ≤ 7) }
    ensures { result ≡ down * 8 + across }
{
    (((down as u32) * 8) as usize) + across
}

// The entry of Table V.
fn plan_v(letter: u32, aql: u32) -> Option<Plan>
    ensures { SomeIff result ((1 ≤ letter) × (letter ≤ 11) × (column aql < 8)) (plan_v letter aql) }
{
    let at = cell(letter_row(letter)?, column(aql)?);
    Some(Plan {
        kind: CSP_T,
        n: FREQUENCIES[(letter - 1) as usize],
        i: TABLE_V_I[at],
        s: TABLE_V_S[at],
        x: 0,
        period: 0,
    })
}

// The entry of Table III-A-4.
fn plan_iii_a_4(letter: u32, period: u32) -> Option<Plan>
    ensures { SomeIff result ((1 ≤ letter) × (letter ≤ 8)) (plan_iii_a_4 letter period) }
{
    let by_letter = match letter {
        1..=8 => (letter - 1) as usize,
        _ => return None,
    };
    let at = cell(row(period), by_letter);
    Some(Plan {
        kind: CSP_F,
        n: FREQUENCIES[by_letter],
        i: TABLE_III_A_4[at],
        s: 0,
        x: 0,
        period: period,
    })
}

// The tables' entry for a type, a letter, an AQL in thousandths of a percent and a period.
#[tactic(auto, using(crate::proofs::Has::of_v, crate::proofs::Has::of_iii_a_4, crate::proofs::Has::of_neither))]
pub fn look_up(kind: u32, letter: u32, aql: u32, period: u32) -> Option<Plan>
    ensures { result ≡ look_up kind letter aql period }
{
    match (kind, aql, period) {
        (CSP_T, _, 0) => plan_v(letter, aql),
        (CSP_F, 40, 1..=HIGHEST_UNIT) => plan_iii_a_4(letter, period),
        _ => None,
    }
}
