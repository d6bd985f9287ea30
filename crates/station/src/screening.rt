// Document 01, "Screening".
ghost use Rattle.std.specs.Prelude.{◌≡◌, ◌<◌};
ghost use Rattle.rules.specs.Plan.{clearance_limit, highest_unit};
ghost use Rattle.rules.specs.Screening.{start_screening, start_sampling, restart_raised, screened_good, need_after_defect, long_screening, defect_raised, screened_bad, after_find};
ghost use Rattle.rules.specs.Sampling.{quietly};
ghost use Rattle.station.specs.Fit.{Findable};

use crate::events::{event, screening_defect, to_sampling, to_screening};
use rules::{CSP_V, Event, Kind, Moved, Phase, Plan, Raised, Sampling, Screening};

pub fn start_screening(need: u32) -> Phase
    ensures { result ≡ start_screening need }
{
    Phase::Screen(Screening {
        need,
        run: 0,
        screened: 0,
        unrecalled: 0,
    })
}

pub fn start_sampling(level: u32) -> Phase
    ensures { result ≡ start_sampling level }
{
    Phase::Sample(Sampling {
        level,
        place: 0,
        chosen: 0,
        row: 0,
        watch: false,
        watched: 0,
    })
}

// Nothing is raised: a phase goes on, where in letter.rt a whole stream does. Moved and Ruled are two types of the definitions.
pub fn quiet(phase: Phase) -> Moved
    ensures { result ≡ quietly phase }
{
    Moved {
        phase,
        raised: Raised::Zero,
    }
}

// A new screening sequence: its cause, then PHASE where sampling ends.
pub fn restart_raised(cause: Event, unit: u32, phase: Phase) -> Raised
    ensures { result ≡ restart_raised cause unit phase }
{
    match phase {
        Phase::Screen(_) => Raised::One(cause),
        Phase::Sample(_) => Raised::Two(cause, to_screening(unit)),
    }
}

#[tactic(auto, using(std::proofs::lemmas::Bool::Decides::nat_tests), unfolding(rules::specs::Screening::screened_good))]
pub fn screened_good(unit: u32, c: Screening) -> Moved
    requires { (c.run < clearance_limit) × (c.screened < highest_unit) × (c.unrecalled < highest_unit) }
    ensures { result ≡ screened_good unit c }
{
    let run = c.run + 1;
    if run == c.need {
        return Moved {
            phase: start_sampling(0),
            raised: Raised::One(to_sampling(unit, 0)),
        };
    }
    quiet(Phase::Screen(Screening {
        run,
        screened: c.screened + 1,
        unrecalled: c.unrecalled + 1,
        ..c
    }))
}

#[tactic(auto, using(std::proofs::lemmas::Bool::Decides::nat_tests), unfolding(rules::specs::Screening::need_after_defect))]
fn need_after_defect(p: Plan, need: u32) -> u32
    ensures { result ≡ need_after_defect p need }
{
    if p.kind == CSP_V { p.i } else { need }
}

#[tactic(auto, using(record::proofs::Laws::as_tests, record::proofs::Laws::known_tests, std::proofs::lemmas::Bool::Decides::nat_tests), unfolding(rules::specs::Screening::long_screening))]
fn long_screening(p: Plan, screened: u32) -> bool
    ensures { result ≡ long_screening p screened }
{
    p.s != 0 && p.s <= screened
}

#[tactic(auto, unfolding(rules::specs::Screening::defect_raised))]
fn defect_raised(long: bool, unit: u32, screened: u32) -> Raised
    ensures { result ≡ defect_raised long unit screened }
{
    let defect = screening_defect(unit);
    if long {
        Raised::Two(defect, event(Kind::Long, unit, screened))
    } else {
        Raised::One(defect)
    }
}

#[tactic(auto, unfolding(rules::specs::Screening::screened_bad))]
pub fn screened_bad(p: Plan, unit: u32, c: Screening) -> Moved
    requires { c.screened < highest_unit }
    ensures { result ≡ screened_bad p unit c }
{
    let screened = c.screened + 1;
    Moved {
        phase: Phase::Screen(Screening {
            need: need_after_defect(p, c.need),
            run: 0,
            screened,
            ..c
        }),
        raised: defect_raised(long_screening(p, screened), unit, screened),
    }
}

// A check find: a new run, and the units screened stay screened (document 02, W2).
pub fn after_find(phase: Phase) -> Phase
    requires { Findable phase }
    ensures { result ≡ after_find phase }
{
    match phase {
        Phase::Screen(c) => Phase::Screen(Screening {
            run: 0,
            unrecalled: c.unrecalled - 1,
            ..c
        }),
        Phase::Sample(_) => phase,
    }
}
