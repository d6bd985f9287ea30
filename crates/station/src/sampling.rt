// Document 01, "Sampling". Plan and unit go beside the phase, as in the definitions, and are no part of it: the plan that judges a
// sample may be another than that of the sequence which it starts.
ghost use Rattle.std.specs.Prelude.{◌≡◌, ◌≤◌, ◌<◌};
ghost use Rattle.rules.specs.Plan.{clearance_limit};
ghost use Rattle.rules.specs.Sampling.{drawn, placed, good_t, good_v, good2, sampled_good, reverted, need_after_sampling, sampled_bad};
ghost use Rattle.rules.specs.Stream.{arrived_drawn, arrived_sampling};

use crate::events::{sampling_defect, to_sampling, to_screening};
use crate::screening::{quiet, start_sampling, start_screening};
use rules::{Arrived, CSP_2, CSP_T, CSP_V, Drawn, Moved, Phase, Plan, Raised, Sampling};

#[tactic(auto, using(std::proofs::lemmas::Bool::Decides::nat_tests), unfolding(rules::specs::Sampling::drawn))]
fn draw_place(len: u16, s: u32, m: Sampling) -> Drawn
    ensures { result ≡ drawn len s m }
{
    if m.place == 0 {
        let next = draw::step(s);
        return Drawn {
            generator: next,
            chosen: draw::place(next, len),
        };
    }
    Drawn {
        generator: s,
        chosen: m.chosen,
    }
}

// The unit at the chosen place is inspected, the others pass.
pub fn arrived_sampling(len: u16, s: u32, m: Sampling) -> Arrived
    requires { m.place < 800 }
    ensures { result ≡ arrived_sampling len s m }
{
    let d = draw_place(len, s, m);
    Arrived {
        phase: Phase::Sample(Sampling {
            place: draw::next_place(len as u64, m.place) as u32,
            chosen: d.chosen,
            ..m
        }),
        generator: d.generator,
        inspect: m.place == d.chosen,
    }
}

#[tactic(auto, using(std::proofs::lemmas::Bool::Decides::nat_tests), unfolding(rules::specs::Sampling::good_t))]
fn good_t(p: Plan, unit: u32, m: Sampling) -> Moved
    requires { (m.level ≤ 2) × (m.row ≤ clearance_limit) }
    ensures { result ≡ good_t p unit m }
{
    if 2 <= m.level {
        return quiet(Phase::Sample(m));
    }
    let row = m.row + 1;
    if row == p.i {
        let level = m.level + 1;
        return Moved {
            phase: start_sampling(level),
            raised: Raised::One(to_sampling(unit, level)),
        };
    }
    quiet(Phase::Sample(Sampling { row, ..m }))
}

#[tactic(auto, using(std::proofs::lemmas::Bool::Decides::nat_tests), unfolding(rules::specs::Sampling::good_v))]
fn good_v(p: Plan, m: Sampling) -> Moved
    requires { m.row ≤ clearance_limit }
    ensures { result ≡ good_v p m }
{
    if m.row < p.i {
        let row = m.row + 1;
        return quiet(Phase::Sample(Sampling { row, ..m }));
    }
    quiet(Phase::Sample(m))
}

#[tactic(auto, using(std::proofs::lemmas::Bool::Decides::nat_tests), unfolding(rules::specs::Sampling::good2))]
fn good_2(p: Plan, m: Sampling) -> Moved
    requires { m.watched ≤ clearance_limit }
    ensures { result ≡ good2 p m }
{
    if m.watch {
        let watched = m.watched + 1;
        if watched == p.i {
            return quiet(Phase::Sample(Sampling {
                watch: false,
                watched: 0,
                ..m
            }));
        }
        return quiet(Phase::Sample(Sampling { watched, ..m }));
    }
    quiet(Phase::Sample(m))
}

#[tactic(auto, using(std::proofs::lemmas::Bool::Decides::nat_tests), unfolding(rules::specs::Sampling::sampled_good))]
pub fn sampled_good(p: Plan, unit: u32, m: Sampling) -> Moved
    requires { (m.level ≤ 2) × (m.row ≤ clearance_limit) × (m.watched ≤ clearance_limit) }
    ensures { result ≡ sampled_good p unit m }
{
    match p.kind {
        CSP_T => good_t(p, unit, m),
        CSP_V => good_v(p, m),
        CSP_2 => good_2(p, m),
        _ => quiet(Phase::Sample(m)),
    }
}

#[tactic(auto, using(record::proofs::Laws::as_tests, record::proofs::Laws::known_tests, std::proofs::lemmas::Bool::Decides::nat_tests), unfolding(rules::specs::Sampling::need_after_sampling))]
fn need_after_sampling(p: Plan, q: Plan, row: u32) -> u32
    ensures { result ≡ need_after_sampling p q row }
{
    if p.kind == CSP_V && p.i <= row {
        q.x
    } else {
        q.i
    }
}

fn revert(need: u32, unit: u32) -> Moved
    ensures { result ≡ reverted need unit }
{
    Moved {
        phase: start_screening(need),
        raised: Raised::Two(sampling_defect(unit), to_screening(unit)),
    }
}

#[tactic(auto, using(record::proofs::Laws::as_tests, record::proofs::Laws::known_tests, std::proofs::lemmas::Bool::Decides::nat_tests), unfolding(rules::specs::Sampling::sampled_bad))]
pub fn sampled_bad(p: Plan, q: Plan, unit: u32, m: Sampling) -> Moved
    ensures { result ≡ sampled_bad p q unit m }
{
    if p.kind == CSP_2 && !m.watch {
        return Moved {
            phase: Phase::Sample(Sampling {
                watch: true,
                watched: 0,
                ..m
            }),
            raised: Raised::One(sampling_defect(unit)),
        };
    }
    revert(need_after_sampling(p, q, m.row), unit)
}
