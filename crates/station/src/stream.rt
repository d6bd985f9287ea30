// What each call makes of the stream (document 01, "Missed units and silence" and the sections before it).
ghost use Rattle.std.specs.Prelude.{◌≡◌, true, false, ◌+◌, ◌≤◌, ◌<◌};
ghost use Rattle.rules.specs.Stream.{fresh_stream, missed_tally, restarted, jumped, arrived, arrived_tally, arrived_stream, handled, unit_rule, result_phase, result_tally, result_moved, result_rule, interrupt_rule, find_rule, with_silence, tick_rule};
ghost use Rattle.rules.specs.Plan.{unit_limit, event_limit, highest_unit};
ghost use Rattle.rules.proofs.Facts.{PlanFacts, StreamFacts};
ghost use Rattle.station.specs.Fit.{Findable, Countable, Placed};

use crate::events::event;
use crate::letter::{at_shift, sequence_plan, unraised};
use crate::sampling::{arrived_sampling, sampled_bad, sampled_good};
use crate::screening::{after_find, restart_raised, screened_bad, screened_good, start_screening};
use rules::{Arrived, Event, Kind, Moved, Phase, Plan, Raised, Ruled, Silence, Stream, Tally};

pub fn fresh_stream(p: Plan, seed: u32) -> Stream
    ensures { result ≡ fresh_stream p seed }
{
    Stream {
        plan: p,
        waiting: None,
        phase: start_screening(p.i),
        tally: Tally {
            conforming: 0,
            defective: 0,
            passed: 0,
            missed: 0,
            owed: false,
            last: 0,
        },
        silence: Silence {
            ticks: 0,
            heard: false,
        },
        generator: seed,
    }
}

fn missed_tally(k: u32, t: Tally) -> Tally
    requires { (t.last < k) × (k ≤ highest_unit) × (t.missed ≤ highest_unit) }
    ensures { result ≡ missed_tally k t }
{
    Tally {
        missed: t.missed + (k - (t.last + 1)),
        ..t
    }
}

// A new screening sequence; one that ends sampling takes up a plan that waits.
fn restart(cause: Event, unit: u32, s: Stream) -> Ruled
    ensures { result ≡ restarted cause unit s }
{
    let next = sequence_plan(s.phase, s.waiting, s.plan);
    let ruled = Ruled {
        stream: Stream {
            phase: start_screening(next.i),
            ..s
        },
        raised: restart_raised(cause, unit, s.phase),
    };
    at_shift(unit, s.phase, ruled)
}

// The units between the last and k are missed.
#[tactic(auto, using(std::proofs::lemmas::Bool::Decides::nat_tests), unfolding(rules::specs::Stream::jumped))]
fn jump(k: u32, s: Stream) -> Ruled
    requires { (s.tally.last < k) × (k ≤ highest_unit) × (s.tally.missed ≤ highest_unit) }
    ensures { result ≡ jumped k s }
{
    let first = s.tally.last + 1;
    if first < k {
        let cause = event(Kind::Missed, first, k - first);
        let tally = missed_tally(k, s.tally);
        return restart(cause, k, Stream { tally, ..s });
    }
    unraised(s)
}

// Every unit is inspected in screening, and the one at the chosen place in sampling.
#[tactic(auto, using(rules::proofs::Facts::block_high))]
fn arrive(p: Plan, s: u32, phase: Phase) -> Arrived
    requires { PlanFacts p × Placed phase }
    ensures { result ≡ arrived p s phase }
{
    match phase {
        Phase::Screen(_) => Arrived {
            phase,
            generator: s,
            inspect: true,
        },
        Phase::Sample(m) => arrived_sampling(draw::block_length(p, m.level) as u16, s, m),
    }
}

#[tactic(auto, unfolding(rules::specs::Stream::arrived_tally))]
fn arrived_tally(k: u32, inspect: bool, t: Tally) -> Tally
    requires { t.passed ≤ highest_unit }
    ensures { result ≡ arrived_tally k inspect t }
{
    Tally {
        passed: t.passed + u32::from(!inspect),
        owed: inspect,
        last: k,
        ..t
    }
}

fn arrived_stream(k: u32, a: Arrived, s: Stream) -> Stream
    requires { s.tally.passed ≤ highest_unit }
    ensures { result ≡ arrived_stream k a s }
{
    Stream {
        phase: a.phase,
        tally: arrived_tally(k, a.inspect, s.tally),
        silence: Silence {
            heard: true,
            ..s.silence
        },
        generator: a.generator,
        ..s
    }
}

// What was missed, then unit k.
fn handle(k: u32, j: Ruled) -> Ruled
    requires { PlanFacts j.stream.plan × Placed j.stream.phase × (j.stream.tally.passed ≤ highest_unit) }
    ensures { result ≡ handled k j }
{
    let s = j.stream;
    let a = arrive(s.plan, s.generator, s.phase);
    Ruled {
        stream: arrived_stream(k, a, s),
        ..j
    }
}

#[tactic(auto, using(crate::proofs::Laws::jumped_fit))]
pub fn unit_rule(k: u32, s: Stream) -> Ruled
    requires { StreamFacts s × (s.tally.owed ≡ false) × (s.tally.last < k) × (k ≤ unit_limit s.plan) }
    ensures { result ≡ unit_rule k s }
{
    handle(k, jump(k, s))
}

#[tactic(auto, using(std::proofs::lemmas::Bool::Decides::nat_tests), unfolding(rules::specs::Stream::result_phase))]
fn result_phase(p: Plan, next: Plan, unit: u32, r: u32, phase: Phase) -> Moved
    requires { Countable phase }
    ensures { result ≡ result_phase p next unit r phase }
{
    match (phase, r) {
        (Phase::Screen(c), 0) => screened_good(unit, c),
        (Phase::Screen(c), _) => screened_bad(p, unit, c),
        (Phase::Sample(m), 0) => sampled_good(p, unit, m),
        (Phase::Sample(m), _) => sampled_bad(p, next, unit, m),
    }
}

#[tactic(auto, using(std::proofs::lemmas::Bool::Decides::nat_tests), unfolding(rules::specs::Stream::result_tally))]
fn result_tally(r: u32, t: Tally) -> Tally
    requires { (t.conforming ≤ highest_unit) × (t.defective ≤ highest_unit) }
    ensures { result ≡ result_tally r t }
{
    let good = r == 0;
    Tally {
        conforming: t.conforming + u32::from(good),
        defective: t.defective + u32::from(!good),
        owed: false,
        ..t
    }
}

fn result_moved(r: u32, m: Moved, s: Stream) -> Ruled
    requires { (s.tally.conforming ≤ highest_unit) × (s.tally.defective ≤ highest_unit) }
    ensures { result ≡ result_moved r m s }
{
    Ruled {
        stream: Stream {
            phase: m.phase,
            tally: result_tally(r, s.tally),
            ..s
        },
        raised: m.raised,
    }
}

pub fn result_rule(r: u32, s: Stream) -> Ruled
    requires { StreamFacts s × (s.tally.owed ≡ true) }
    ensures { result ≡ result_rule r s }
{
    let last = s.tally.last;
    let m = result_phase(s.plan, s.waiting.unwrap_or(s.plan), last, r, s.phase);
    at_shift(last, s.phase, result_moved(r, m, s))
}

pub fn interrupt_rule(s: Stream) -> Ruled
    ensures { result ≡ interrupt_rule s }
{
    let last = s.tally.last;
    restart(event(Kind::Interrupt, last, 0), last, s)
}

pub fn find_rule(s: Stream) -> Ruled
    requires { Findable s.phase }
    ensures { result ≡ find_rule s }
{
    Ruled {
        stream: Stream {
            phase: after_find(s.phase),
            ..s
        },
        raised: Raised::One(event(Kind::Check, s.tally.last, 0)),
    }
}

fn with_silence(ticks: u32, s: Stream) -> Stream
    ensures { result ≡ with_silence (record { ticks = ticks; heard = false }) s }
{
    Stream {
        silence: Silence {
            ticks,
            heard: false,
        },
        ..s
    }
}

#[tactic(auto, using(std::proofs::lemmas::Bool::Decides::nat_tests), unfolding(rules::specs::Stream::tick_rule))]
pub fn tick_rule(s: Stream) -> Ruled
    requires { s.silence.ticks ≤ event_limit }
    ensures { result ≡ tick_rule s }
{
    if s.silence.heard {
        return unraised(with_silence(0, s));
    }
    let ticks = s.silence.ticks + 1;
    Ruled {
        stream: with_silence(ticks, s),
        raised: Raised::One(event(Kind::Silent, s.tally.last, ticks)),
    }
}
