// Document 01, "Plan numbers" and "A sound record": total tests of a plan and of a record. They go by the type of plan: every
// call tests the record, and it makes the tests of its own type alone. Within a type they are joined by `&`, which has no
// branch: with `&&` a tick and a refused call take 4 instructions more, and where there is an `||` the proofs do not close.
#![tactic(auto, using(crate::proofs::Laws::as_tests))]

ghost use Rattle.std.specs.Prelude.{◌≡◌, not, ◌+◌, ◌≤◌, eqb};
ghost use Rattle.rules.specs.Tests.{within, ◌and◌};
ghost use Rattle.rules.specs.Plan.{csp1, csp_v, clearance_limit, in_range, unit_limit, room_in_range};
ghost use Rattle.rules.specs.Change.{not_allowed};
ghost use Rattle.rules.specs.Sound.{sound_tally, sound_need, sound_screening, sound_places, row_counts, level_begins, sound_begin, sound_watch, sound_sampling, sound_phase, on_its_side, sound_next, sound_waiting, sound_numbers, sound_silence, sound};

use rules::{
    CLEARANCE_LIMIT, CSP_2, CSP_F, CSP_T, CSP_V, EVENTS_END, HIGHEST_UNIT, LONG_LIMIT, Numbers,
    Phase, Plan, Sampling, Screening, Silence, Station, Tally,
};

// The library's `contains` by the name of the definition: where it stood in each test, the two `in_range` below did not close.
#[tactic(auto, using(crate::proofs::Laws::as_tests, std::proofs::lemmas::Bool::Decides::nat_tests))]
fn in_bounds(low: u32, x: u32, high: u32) -> bool
    ensures { result ≡ within low x high }
{
    (low..=high).contains(&x)
}

// The ranges that every type of plan has: of the type, of n and of i.
fn common_in_range(p: Plan) -> bool
    ensures { result ≡ (within csp1 p.kind csp_v and within 2 p.n 200 and within 1 p.i clearance_limit) }
{
    in_bounds(1, p.kind, CSP_V) & in_bounds(2, p.n, 200) & in_bounds(1, p.i, CLEARANCE_LIMIT)
}

// Is every plan number in its range?
#[tactic(auto, using(crate::proofs::Laws::as_tests, crate::proofs::Laws::known_tests, std::proofs::lemmas::Bool::Decides::nat_tests), unfolding(rules::specs::Plan::in_range))]
pub fn in_range(p: Plan) -> bool
    ensures { result ≡ in_range p }
{
    common_in_range(p)
        && match p.kind {
            CSP_F => (p.s == 0) & (p.x == 0) & in_bounds(1, p.period, HIGHEST_UNIT),
            CSP_V => in_bounds(p.i, p.s, LONG_LIMIT) & in_bounds(1, p.x, p.i) & (p.period == 0),
            _ => in_bounds(p.i, p.s, LONG_LIMIT) & (p.x == 0) & (p.period == 0),
        }
}

// The highest unit number of a plan.
#[tactic(auto, using(std::proofs::lemmas::Bool::Decides::nat_tests), unfolding(rules::specs::Plan::unit_limit))]
pub fn unit_limit(p: Plan) -> u32
    ensures { result ≡ unit_limit p }
{
    if p.kind == CSP_F {
        p.period
    } else {
        HIGHEST_UNIT
    }
}

// Is this no plan to follow the plan in force: another type, CSP-F, or i not on the side of n?
#[tactic(auto, using(crate::proofs::Laws::as_tests), unfolding(rules::specs::Change::not_allowed))]
pub fn not_allowed(p: Plan, q: Plan) -> bool
    ensures { result ≡ not_allowed p q }
{
    (q.kind != p.kind)
        | (q.kind == CSP_F)
        | ((p.n < q.n) & (q.i <= p.i))
        | ((q.n < p.n) & (p.i <= q.i))
}

// Is this a queue's room?
#[tactic(auto, using(crate::proofs::Laws::as_tests), unfolding(rules::specs::Plan::room_in_range))]
pub fn room_in_range(room: u32) -> bool
    ensures { result ≡ room_in_range room }
{
    in_bounds(8, room, 4096)
}

// A record from elsewhere may hold any numbers: sums of them are taken in 64 bits.
#[tactic(auto, using(crate::proofs::Laws::as_tests), unfolding(rules::specs::Sound::sound_tally))]
fn sound_tally(p: Plan, t: Tally) -> bool
    ensures { result ≡ sound_tally p t }
{
    let sum = (t.conforming as u64)
        + (t.defective as u64)
        + (t.passed as u64)
        + (t.missed as u64)
        + u64::from(t.owed);
    (sum == (t.last as u64)) & (t.last <= unit_limit(p))
}

#[tactic(auto, using(crate::proofs::Laws::as_tests), unfolding(rules::specs::Sound::sound_need))]
fn sound_need(p: Plan, need: u32) -> bool
    ensures { result ≡ sound_need p need }
{
    (need == p.i) | ((p.kind == CSP_V) & (need == p.x))
}

#[tactic(auto, using(crate::proofs::Laws::as_tests), unfolding(rules::specs::Sound::sound_screening))]
fn sound_screening(p: Plan, t: Tally, c: Screening) -> bool
    ensures { result ≡ sound_screening p t c }
{
    sound_need(p, c.need)
        & (c.run < c.need)
        & (c.run <= c.unrecalled)
        & (c.unrecalled <= c.screened)
        & ((c.screened as u64) + u64::from(t.owed) <= (t.last as u64))
        & (c.unrecalled <= t.conforming)
}

#[tactic(auto, using(crate::proofs::Laws::as_tests), unfolding(rules::specs::Sound::sound_places))]
fn sound_places(len: u64, owed: bool, m: Sampling) -> bool
    ensures { result ≡ sound_places len owed m }
{
    ((m.place as u64) < len)
        & ((m.chosen as u64) < len)
        & (!owed | (draw::next_place(len, m.chosen) == (m.place as u64)))
}

// Are conforming samples in a row counted?
fn row_counts(p: Plan, level: u32) -> bool
    ensures { result ≡ row_counts p level }
{
    ((p.kind == CSP_T) & (level < 2)) | (p.kind == CSP_V)
}

fn level_begins(p: Plan, owed: bool, m: Sampling) -> bool
    ensures { result ≡ level_begins p owed m }
{
    row_counts(p, m.level) & (m.row == 0) & (m.place == 0) & !owed
}

#[tactic(auto, using(crate::proofs::Laws::as_tests), unfolding(rules::specs::Sound::sound_begin))]
fn sound_begin(p: Plan, owed: bool, m: Sampling) -> bool
    ensures { result ≡ sound_begin p owed m }
{
    !level_begins(p, owed, m) | (m.chosen == 0)
}

fn unwatched(m: Sampling) -> bool
    ensures { result ≡ (not m.watch and eqb m.watched 0) }
{
    !m.watch & (m.watched == 0)
}

#[tactic(auto, using(crate::proofs::Laws::as_tests), unfolding(rules::specs::Sound::sound_watch))]
fn sound_watch(p: Plan, m: Sampling) -> bool
    ensures { result ≡ sound_watch p m }
{
    if (p.kind == CSP_2) & m.watch {
        m.watched < p.i
    } else {
        unwatched(m)
    }
}

#[tactic(auto, using(crate::proofs::Laws::as_tests, crate::proofs::Laws::known_tests, crate::proofs::Laws::begin_else, std::proofs::lemmas::Bool::Decides::nat_tests), unfolding(rules::specs::Sound::sound_sampling, rules::specs::Sound::sound_level, rules::specs::Sound::sound_row, rules::specs::Sound::sound_watch))]
fn sound_sampling(p: Plan, t: Tally, m: Sampling) -> bool
    ensures { result ≡ sound_sampling p t m }
{
    sound_places(draw::block_length(p, m.level), t.owed, m)
        && match p.kind {
            CSP_T => {
                let sound_row = if m.level < 2 { m.row < p.i } else { m.row == 0 };
                (m.level <= 2) & sound_begin(p, t.owed, m) & sound_row & unwatched(m)
            }
            CSP_V => { (m.level == 0) & sound_begin(p, t.owed, m) & (m.row <= p.i) & unwatched(m) }
            _ => (m.level == 0) & (m.row == 0) & sound_watch(p, m),
        }
}

#[tactic(auto, using(crate::proofs::Laws::as_tests), unfolding(rules::specs::Sound::sound_phase))]
fn sound_phase(p: Plan, t: Tally, phase: Phase) -> bool
    ensures { result ≡ sound_phase p t phase }
{
    match phase {
        Phase::Screen(c) => sound_screening(p, t, c),
        Phase::Sample(m) => sound_sampling(p, t, m),
    }
}

// In screening a higher frequency waits, in sampling a lower one.
fn on_its_side(phase: Phase, p: Plan, q: Plan) -> bool
    ensures { result ≡ on_its_side phase p q }
{
    match phase {
        Phase::Screen(_) => (q.n < p.n) & (q.i < p.i),
        Phase::Sample(_) => (p.n < q.n) & (p.i < q.i),
    }
}

#[tactic(auto, using(crate::proofs::Laws::as_tests), unfolding(rules::specs::Sound::sound_next))]
fn sound_next(p: Plan, phase: Phase, q: Plan) -> bool
    ensures { result ≡ sound_next p phase q }
{
    in_range(q) & (q.kind == p.kind) & (q.kind != CSP_F) & on_its_side(phase, p, q)
}

fn sound_waiting(p: Plan, phase: Phase, w: Option<Plan>) -> bool
    ensures { result ≡ sound_waiting p phase w }
{
    w.is_none_or(|q| sound_next(p, phase, q))
}

#[tactic(auto, using(crate::proofs::Laws::as_tests), unfolding(rules::specs::Sound::sound_numbers))]
fn sound_numbers(room: u32, n: Numbers) -> bool
    ensures { result ≡ sound_numbers room n }
{
    let next = n.next as u64;
    let full = (n.oldest as u64) + (room as u64);
    let told_and_lost = (n.told as u64) + (n.lost as u64);
    (1 <= n.told)
        & (n.told <= n.oldest)
        & (n.oldest <= n.next)
        & (2 <= n.next)
        & (n.next <= EVENTS_END)
        & (next <= full)
        & ((n.oldest == n.told) | (next == full))
        & (told_and_lost <= (n.oldest as u64))
}

#[tactic(auto, using(crate::proofs::Laws::as_tests), unfolding(rules::specs::Sound::sound_silence))]
fn sound_silence(q: Silence, n: Numbers) -> bool
    ensures { result ≡ sound_silence q n }
{
    (q.ticks as u64) + 2 <= (n.next as u64)
}

// Is the record sound?
#[tactic(auto, using(crate::proofs::Laws::as_tests, crate::proofs::Laws::known_tests), unfolding(rules::specs::Sound::sound))]
pub fn is_sound(s: Station) -> bool
    ensures { result ≡ sound s }
{
    // Each part is bound by itself: read in place, or taken apart by a pattern, they take 20 instructions a frame more.
    let stream = s.stream;
    let p = stream.plan;
    let waiting = stream.waiting;
    let tally = stream.tally;
    let phase = stream.phase;
    let silence = stream.silence;
    let n = s.numbers;
    in_range(p)
        && sound_waiting(p, phase, waiting)
        && sound_tally(p, tally)
        && sound_phase(p, tally, phase)
        && sound_numbers(s.room, n)
        && sound_silence(silence, n)
}
