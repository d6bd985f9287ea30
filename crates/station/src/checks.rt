// Document 01, "Calls and their checks": each call's checks in the document's order.
ghost use Rattle.std.specs.Prelude.{◌≡◌};
ghost use Rattle.rules.specs.Calls.{refuse_if, no_queue, wrong_queue, numbers_spent, nothing_to_find, open_checks, queue_checks, numbers_check, owed_check, unit_checks, result_checks, find_checks, change_checks, own_checks, call_checks};

use rules::{Call, EVENTS_END, Phase, Plan, Refusal, Station};

#[tactic(auto, unfolding(rules::specs::Calls::refuse_if))]
fn refuse_if(fault: bool, r: Refusal) -> Result<(), Refusal>
    ensures { result ≡ refuse_if fault r (Ok tt) }
{
    if fault { Err(r) } else { Ok(()) }
}

// No queue has more than the 12,288 words of 4,096 entries; up to there they are counted in 32 bits (document 02, W3).
#[tactic(auto, using(crate::proofs::Memory::queue_tests))]
fn no_queue(len: usize) -> bool
    ensures { result ≡ no_queue len }
{
    if 12288 < len {
        return true;
    }
    let words = len as u32;
    (words % 3 != 0) | !record::room_in_range(words / 3)
}

// A room in its range is multiplied in 32 bits.
#[tactic(auto, using(crate::proofs::Memory::queue_tests))]
fn wrong_queue(room: u32, len: usize) -> bool
    ensures { result ≡ wrong_queue room len }
{
    if !record::room_in_range(room) {
        return true;
    }
    len != ((3 * room) as usize)
}

#[tactic(auto, using(std::proofs::lemmas::Bool::Decides::nat_tests), unfolding(rules::specs::Calls::numbers_spent))]
fn numbers_spent(next: u32) -> bool
    ensures { result ≡ numbers_spent next }
{
    (EVENTS_END as u64) < (next as u64) + 3
}

#[tactic(auto, using(std::proofs::lemmas::Bool::Decides::nat_tests), unfolding(rules::specs::Calls::nothing_to_find))]
fn nothing_to_find(phase: Phase) -> bool
    ensures { result ≡ nothing_to_find phase }
{
    match phase {
        Phase::Screen(c) => c.unrecalled == 0,
        Phase::Sample(_) => true,
    }
}

#[tactic(auto, using(crate::proofs::Checked::checked))]
pub fn open_checks(p: Plan, len: usize) -> Result<(), Refusal>
    ensures { result ≡ open_checks p len }
{
    refuse_if(no_queue(len), Refusal::QueueMemory)?;
    refuse_if(!record::in_range(p), Refusal::PlanOutOfRange)
}

#[tactic(auto, using(crate::proofs::Checked::checked))]
fn queue_checks(s: Station, len: usize) -> Result<(), Refusal>
    ensures { result ≡ queue_checks s len (Ok tt) }
{
    refuse_if(wrong_queue(s.room, len), Refusal::QueueMemory)?;
    refuse_if(!record::is_sound(s), Refusal::UnsoundRecord)
}

fn numbers_check(s: Station) -> Result<(), Refusal>
    ensures { result ≡ numbers_check s.numbers.next (Ok tt) }
{
    refuse_if(numbers_spent(s.numbers.next), Refusal::NumbersSpent)
}

#[tactic(auto, using(crate::proofs::Checked::checked))]
fn owed_check(s: Station) -> Result<(), Refusal>
    ensures { result ≡ owed_check s.numbers.next s.stream.tally (Ok tt) }
{
    numbers_check(s)?; // 10 comes before 4
    refuse_if(s.stream.tally.owed, Refusal::ResultOwed)
}

#[tactic(auto, using(crate::proofs::Checked::checked))]
fn unit_checks(s: Station, k: u32) -> Result<(), Refusal>
    ensures { result ≡ unit_checks s.stream s.numbers.next k }
{
    owed_check(s)?;
    refuse_if(k <= s.stream.tally.last, Refusal::NotAboveLast)?;
    refuse_if(record::unit_limit(s.stream.plan) < k, Refusal::AboveLimit)
}

#[tactic(auto, using(crate::proofs::Checked::checked))]
fn result_checks(s: Station, r: u32) -> Result<(), Refusal>
    ensures { result ≡ result_checks s.stream s.numbers.next r }
{
    numbers_check(s)?; // 10 comes before 9
    refuse_if(1 < r, Refusal::IllFormed)?;
    refuse_if(!s.stream.tally.owed, Refusal::NoResultOwed)
}

#[tactic(auto, using(crate::proofs::Checked::checked))]
fn find_checks(s: Station) -> Result<(), Refusal>
    ensures { result ≡ find_checks s.stream s.numbers.next }
{
    owed_check(s)?;
    refuse_if(nothing_to_find(s.stream.phase), Refusal::NothingToFind)
}

#[tactic(auto, using(crate::proofs::Checked::checked))]
fn change_checks(s: Station, q: Plan) -> Result<(), Refusal>
    ensures { result ≡ change_checks s.stream s.numbers.next q }
{
    owed_check(s)?;
    refuse_if(
        record::not_allowed(s.stream.plan, q),
        Refusal::ChangeNotAllowed,
    )?;
    refuse_if(!record::in_range(q), Refusal::PlanOutOfRange)
}

// The checks of a call after 1 and 2.
fn own_checks(call: Call, s: Station) -> Result<(), Refusal>
    ensures { result ≡ own_checks call s.stream s.numbers.next }
{
    match call {
        Call::Unit(k) => unit_checks(s, k),
        Call::Result(r) => result_checks(s, r),
        Call::Interrupt => owed_check(s),
        Call::CheckFind => find_checks(s),
        Call::Tick => numbers_check(s),
        Call::Take => Ok(()),
        Call::Change { plan, demand: _ } => change_checks(s, plan),
    }
}

#[tactic(auto, using(crate::proofs::Checked::checked))]
pub fn call_checks(call: Call, s: Station, len: usize) -> Result<(), Refusal>
    ensures { result ≡ call_checks call s len }
{
    queue_checks(s, len)?;
    own_checks(call, s)
}
