// A request: the call and its arguments, the record, and the queue's words, in the order of the table in second/README.md.
ghost use Rattle.std.specs.Prelude.{◌+◌, ◌≤◌, ◌<◌, SomeIff};
ghost use Rattle.rules.specs.Frames.{digit};

use rules::{Numbers, Phase, Plan, Sampling, Screening, Silence, Station, Stream, Tally, Turn};

// The words before the queue's.
const HEAD_WORDS: usize = 45;

// The most of the queue's words: more than any queue has, so that a request can bring too many.
pub(crate) const QUEUE_WORDS: usize = 12_400;

const MOST_WORDS: usize = HEAD_WORDS + QUEUE_WORDS;

// A line as far as it has been read: its words, which are the first of a fixed memory, and the word that a digit has begun.
#[derive(Drop)]
pub(crate) struct Request {
    words: [u32; MOST_WORDS],
    count: usize,
    begun: Option<u32>,
}

impl Request {
    pub(crate) fn new() -> Request {
        Request {
            words: [0; MOST_WORDS],
            count: 0,
            begun: None,
        }
    }

    // The next line begins.
    pub(crate) fn clear(&mut self) {
        self.count = 0;
        self.begun = None;
    }

    // One byte more: a digit goes to the word, which keeps its last eight; any other byte ends it. Words beyond the queue's
    // room are not counted.
    pub(crate) fn read(&mut self, b: u8) {
        if let Some(d) = digit(b) {
            self.begun = Some(self.begun.unwrap_or(0) << 4 | d);
        } else if let Some(word) = self.begun.take()
            && self.count < MOST_WORDS
        {
            self.words[self.count] = word;
            self.count += 1;
        }
    }

    // Makes the call: what it leaves, and the queue's words after it; none where the line is no request.
    pub(crate) fn turn(&mut self) -> Option<(Turn, &[u32])> {
        let count = self.count;
        let words = self.words.get_mut(..count)?;
        let (head, queue) = words.split_first_chunk_mut::<HEAD_WORDS>()?;
        let turn = made(head, queue)?;
        Some((turn, queue))
    }
}

// The value of an upper-case hex digit.
#[tactic(auto, using(std::proofs::lemmas::Bool::Decides::nat_tests), unfolding(rules::specs::Frames::digit))]
fn digit(b: u8) -> Option<u32>
    ensures { SomeIff result (digit b < 16) (digit b) }
{
    match b {
        b'0'..=b'9' => Some(u32::from(b - b'0')),
        b'A'..=b'F' => Some(u32::from(b - b'A') + 10),
        _ => None,
    }
}

// The call by its code. Calls 2 to 8 are made by the library's own functions, which the recorder does not run: it has
// `station::outcome`. A `rules::Call` in between would only need a second match behind this one.
fn made(head: &[u32; HEAD_WORDS], q: &mut [u32]) -> Option<Turn> {
    let s = station_of(head);
    Some(match head[0] {
        1 => station::open(plan_at(head, 1), head[7], q),
        2 => station::unit(s, q, head[1]),
        3 => station::result(s, q, head[1]),
        4 => station::interrupt(s, q),
        5 => station::check_find(s, q),
        6 => station::tick(s, q),
        7 => station::take(s, q),
        8 => station::change(s, q, plan_at(head, 1), head[7] != 0),
        _ => return None,
    })
}

fn station_of(head: &[u32; HEAD_WORDS]) -> Station {
    Station {
        room: head[14],
        stream: Stream {
            plan: plan_at(head, 8),
            waiting: waiting_of(head),
            phase: phase_of(head),
            tally: Tally {
                conforming: head[27],
                defective: head[28],
                passed: head[29],
                missed: head[30],
                owed: head[31] != 0,
                last: head[32],
            },
            silence: Silence {
                ticks: head[33],
                heard: head[34] != 0,
            },
            generator: head[15],
        },
        numbers: Numbers {
            told: head[35],
            oldest: head[36],
            next: head[37],
            lost: head[38],
        },
    }
}

fn plan_at(head: &[u32; HEAD_WORDS], at: usize) -> Plan
    requires { at + 6 ≤ HEAD_WORDS }
{
    Plan {
        kind: head[at],
        n: head[at + 1],
        i: head[at + 2],
        s: head[at + 3],
        x: head[at + 4],
        period: head[at + 5],
    }
}

// Six zeros are no plan.
fn waiting_of(head: &[u32; HEAD_WORDS]) -> Option<Plan> {
    if head[39..].iter().all(|word| *word == 0) {
        return None;
    }
    Some(plan_at(head, 39))
}

fn phase_of(head: &[u32; HEAD_WORDS]) -> Phase {
    if head[16] == 0 {
        return Phase::Screen(Screening {
            need: head[17],
            run: head[18],
            screened: head[19],
            unrecalled: head[20],
        });
    }
    Phase::Sample(Sampling {
        level: head[21],
        place: head[22],
        chosen: head[23],
        row: head[24],
        watch: head[25] != 0,
        watched: head[26],
    })
}
