// A run of the program: the station, its queue, and what a line makes of them. The queue is lent beside it, as `walk` takes it: no line
// copies it.
ghost use Rattle.std.specs.Prelude.{◌≡◌, true, false, List, ℕ, Ok};
ghost use Rattle.rules.specs.Tests.{within};
ghost use Rattle.rules.specs.Calls.{open_call, outcome};
ghost use Rattle.rules.specs.Frames.{new_session, open_reply, reply_with, number_reply, seed_of, table_reply, frame_reply, reply};
ghost use Rattle.frames.specs.Replies.{Replies, session_of, new_standing};

use crate::reading::Line;
use rules::{Answer, Call, Frame, Plan, Refusal, Station};

// Whether an open was accepted, the station number, and the station; with the queue beside it this is the session. What `walk` promises
// speaks of the station before an accepted open too, so that it is no Option. It goes in and comes back by value: changed through a
// `&mut` a frame took some 55 instructions more.
#[derive(Clone, Copy)]
pub struct Standing {
    pub opened: bool,
    pub number: Option<u32>,
    pub station: Station,
}

// What a frame makes of a standing, and its answer. In a Result, Err is a refusal that moves nothing: of what is no such frame here, or
// of a plan or a seed that is not there.
#[derive(Clone, Copy)]
pub struct Replied {
    pub standing: Standing,
    pub answer: Result<Answer, Refusal>,
}

pub fn new_standing() -> Standing
    ensures { result ≡ new_standing }
{
    Standing {
        opened: false,
        number: None,
        station: station::no_station(),
    }
}

pub fn new_queue() -> [u32; 24]
    ensures { result ≡ new_session.queue }
{
    [0; 24]
}

// An open's answer and standing.
fn open_reply(s: Standing, q: &mut [u32], plan: Plan, seed: u32) -> Replied
    ensures { Replies (open_reply (session_of s q.old) (open_call plan seed q.old)) s (Ok result) q.new }
{
    let turn = station::open(plan, seed, q);
    Replied {
        standing: Standing {
            opened: turn.answer.is_ok(),
            station: turn.station,
            ..s
        },
        answer: turn.answer,
    }
}

// A station number before the open; whatever the queue holds, it stays.
#[tactic(auto, using(std::proofs::lemmas::Bool::Decides::nat_tests, crate::proofs::Tests::both))]
fn number_reply(s: Standing, number: u32) -> Result<Replied, Refusal>
    ensures { (queue : List ℕ) → Replies (number_reply (within 1 number 65535) (session_of s queue) number) s result queue }
{
    if (1 <= number) & (number <= 65535) {
        return Ok(Replied {
            standing: Standing {
                number: Some(number),
                ..s
            },
            answer: Ok(Answer::Done),
        });
    }
    Err(Refusal::IllFormed)
}

// A table open takes the seed that is written, or the station number.
fn table_reply(
    s: Standing,
    q: &mut [u32],
    seed: Option<u32>,
    found: Option<Plan>,
) -> Result<Replied, Refusal>
    ensures { Replies (table_reply (session_of s q.old) (seed_of seed s.number) found) s result q.new }
{
    let seed = seed.or(s.number).ok_or(Refusal::IllFormed)?;
    let plan = found.ok_or(Refusal::PlanOutOfRange)?;
    Ok(open_reply(s, q, plan, seed))
}

// Before an accepted open only an open and a station number are taken.
fn first_reply(s: Standing, q: &mut [u32], frame: Frame) -> Result<Replied, Refusal>
    ensures { Replies (frame_reply false (session_of s q.old) frame) s result q.new }
{
    match frame {
        Frame::Open { plan, seed } => Ok(open_reply(s, q, plan, seed)),
        Frame::OpenTable {
            kind,
            letter,
            aql,
            period,
            seed,
        } => {
            let found = tables::look_up(kind, letter, aql, period);
            table_reply(s, q, seed, found)
        }
        Frame::StationNumber(number) => number_reply(s, number),
        Frame::Call(_) => Err(Refusal::UnsoundRecord),
    }
}

fn call_reply(s: Standing, q: &mut [u32], call: Call) -> Replied
    ensures { Replies (reply_with true (session_of s q.old) (outcome call s.station q.old)) s (Ok result) q.new }
{
    let turn = station::outcome(call, s.station, q);
    Replied {
        standing: Standing {
            opened: true,
            station: turn.station,
            ..s
        },
        answer: turn.answer,
    }
}

// What the program makes of a line that a line feed ended. After an accepted open only another call is taken.
pub fn line_reply(s: Standing, q: &mut [u32], line: Line) -> Result<Replied, Refusal>
    ensures { Replies (reply (session_of s q.old) line.entry.text.now) s result q.new }
{
    let frame = line.frame().ok_or(Refusal::IllFormed)?;
    if !s.opened {
        return first_reply(s, q, frame);
    }
    let Frame::Call(call) = frame else {
        return Err(Refusal::IllFormed);
    };
    Ok(call_reply(s, q, call))
}
