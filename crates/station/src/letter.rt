// Document 02, W1: change of code letter in mid-run.
ghost use Rattle.std.specs.Prelude.{◌≡◌, Some};
ghost use Rattle.rules.specs.declared.Raised.TheVariants.{Zero};
ghost use Rattle.rules.specs.Change.{and_last, sequence_plan, in_sampling, shifts, taken_up, at_shift, may_now, fresh_moved, level_raised, now_moved, changed_now, change_rule};

use crate::events::{plan_event, to_sampling, to_screening};
use crate::screening::{quiet, start_screening};
use rules::{Event, Moved, Phase, Plan, Raised, Ruled, Sampling, Screening, Stream};

// One event more, the last of its call.
fn and_last(raised: Raised, e: Event) -> Raised
    ensures { result ≡ and_last raised e }
{
    match raised {
        Raised::Zero => Raised::One(e),
        Raised::One(a) => Raised::Two(a, e),
        Raised::Two(a, b) => Raised::Three(a, b, e),
        Raised::Three(_, _, _) => raised,
    }
}

// The plan of a screening sequence that starts now.
pub fn sequence_plan(phase: Phase, w: Option<Plan>, p: Plan) -> Plan
    ensures { result ≡ sequence_plan phase w p }
{
    match phase {
        Phase::Screen(_) => p,
        Phase::Sample(_) => w.unwrap_or(p),
    }
}

fn in_sampling(phase: Phase) -> bool
    ensures { result ≡ in_sampling phase }
{
    matches!(phase, Phase::Sample(_))
}

fn shifts(before: Phase, after: Phase) -> bool
    ensures { result ≡ shifts before after }
{
    in_sampling(before) != in_sampling(after)
}

// A plan takes force, and none waits any more: event 10 comes last. Most calls take up none: marked cold, it stays out of their
// way, which saves 23 instructions a frame.
#[cold]
fn taken_up(unit: u32, q: Plan, r: Ruled) -> Ruled
    ensures { result ≡ taken_up unit (Some q) r }
{
    Ruled {
        stream: Stream {
            plan: q,
            waiting: None,
            ..r.stream
        },
        raised: and_last(r.raised, plan_event(unit, q.n)),
    }
}

// At a shift from one phase to the other a plan that waits is taken up.
#[tactic(auto, unfolding(rules::specs::Change::at_shift))]
pub fn at_shift(unit: u32, before: Phase, r: Ruled) -> Ruled
    ensures { result ≡ at_shift unit before r }
{
    match r.stream.waiting {
        Some(q) if shifts(before, r.stream.phase) => taken_up(unit, q, r),
        _ => r,
    }
}

// A lower frequency may be taken up at once in screening, a higher one in sampling.
fn may_now(phase: Phase, p: Plan, q: Plan) -> bool
    ensures { result ≡ may_now phase p q }
{
    match phase {
        Phase::Screen(_) => p.n < q.n,
        Phase::Sample(_) => q.n < p.n,
    }
}

// On demand.
fn fresh_moved(q: Plan, unit: u32, phase: Phase) -> Moved
    ensures { result ≡ fresh_moved q unit phase }
{
    let raised = match phase {
        Phase::Screen(_) => Raised::Zero,
        Phase::Sample(_) => Raised::One(to_screening(unit)),
    };
    Moved {
        phase: start_screening(q.i),
        raised,
    }
}

#[tactic(auto, using(std::proofs::lemmas::Bool::Decides::nat_tests), unfolding(rules::specs::Change::level_raised))]
fn level_raised(level: u32, unit: u32) -> Raised
    ensures { result ≡ level_raised level unit }
{
    if level == 0 {
        Raised::Zero
    } else {
        Raised::One(to_sampling(unit, 0))
    }
}

// At once: in screening need is the new i; in sampling all but a watch starts anew.
fn now_moved(q: Plan, unit: u32, phase: Phase) -> Moved
    ensures { result ≡ now_moved q unit phase }
{
    match phase {
        Phase::Screen(c) => quiet(Phase::Screen(Screening { need: q.i, ..c })),
        Phase::Sample(m) => Moved {
            phase: Phase::Sample(Sampling {
                level: 0,
                place: 0,
                chosen: 0,
                row: 0,
                watch: m.watch,
                watched: 0,
            }),
            raised: level_raised(m.level, unit),
        },
    }
}

// A change that takes force at once.
fn changed_now(q: Plan, m: Moved, s: Stream) -> Ruled
    ensures { result ≡ changed_now q m s }
{
    let moved = Ruled {
        stream: Stream {
            phase: m.phase,
            ..s
        },
        raised: m.raised,
    };
    taken_up(s.tally.last, q, moved)
}

// Nothing is raised.
pub fn unraised(stream: Stream) -> Ruled
    ensures { result ≡ record { stream = stream; raised = Zero } }
{
    Ruled {
        stream,
        raised: Raised::Zero,
    }
}

// A new plan of the same type: an equal frequency changes nothing; another is taken up on demand, at once or later.
#[tactic(auto, using(std::proofs::lemmas::Bool::Decides::nat_tests), unfolding(rules::specs::Change::way_of))]
pub fn change_rule(q: Plan, demand: bool, s: Stream) -> Ruled
    ensures { result ≡ change_rule q demand s }
{
    let last = s.tally.last;
    if q.n == s.plan.n {
        return unraised(s);
    }
    if demand {
        return changed_now(q, fresh_moved(q, last, s.phase), s);
    }
    if may_now(s.phase, s.plan, q) {
        return changed_now(q, now_moved(q, last, s.phase), s);
    }
    unraised(Stream {
        waiting: Some(q),
        ..s
    })
}
