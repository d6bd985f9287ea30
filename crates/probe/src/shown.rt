// What a call leaves, as hex words.
ghost use Rattle.std.specs.Prelude.{◌≤◌};
ghost use Rattle.probe.specs.declared.shown.TheConstants.{MOST_BYTES};

use crate::request::QUEUE_WORDS;
use rules::{Phase, Plan, Station, Turn};

// The five values of an answer, the record, and the queue.
const MOST_WORDS: usize = 5 + 37 + QUEUE_WORDS;

const MOST_BYTES: usize = 9 * MOST_WORDS;

// A line of an answer: the first bytes of a fixed memory, a space behind each word.
#[derive(Drop)]
pub(crate) struct Shown {
    bytes: [u8; MOST_BYTES],
    len: usize,
    ghost fits: { len ≤ MOST_BYTES },
}

fn plan_words(p: Plan) -> [u32; 6] {
    [p.kind, p.n, p.i, p.s, p.x, p.period]
}

// Six zeros are no plan.
fn waiting_words(w: Option<Plan>) -> [u32; 6] {
    match w {
        None => [0; 6],
        Some(plan) => plan_words(plan),
    }
}

// The fields of the other phase are 0.
fn phase_words(p: Phase) -> [u32; 11] {
    match p {
        Phase::Screen(c) => [0, c.need, c.run, c.screened, c.unrecalled, 0, 0, 0, 0, 0, 0],
        Phase::Sample(m) => {
            let watch = u32::from(m.watch);
            [
                1, 0, 0, 0, 0, m.level, m.place, m.chosen, m.row, watch, m.watched,
            ]
        }
    }
}

fn glyph(v: u32) -> u8 {
    let d = v % 16;
    (48 + d + d / 10 * 7) as u8
}

// Eight digits and a space.
fn spaced(v: u32) -> [u8; 9] {
    [
        glyph(v >> 28),
        glyph(v >> 24),
        glyph(v >> 20),
        glyph(v >> 16),
        glyph(v >> 12),
        glyph(v >> 8),
        glyph(v >> 4),
        glyph(v),
        b' ',
    ]
}

impl Shown {
    pub(crate) fn new() -> Shown {
        Shown {
            bytes: [0; MOST_BYTES],
            len: 0,
        }
    }

    // A word more, where there is room: there is for the longest answer.
    fn put(&mut self, word: u32) {
        if self.len <= MOST_BYTES - 9 {
            let to = self.len + 9;
            self.bytes[self.len..to].copy_from_slice(&spaced(word));
            self.len = to;
        }
    }

    pub(crate) fn put_words(&mut self, words: &[u32]) {
        for word in words {
            self.put(*word);
        }
    }

    fn put_record(&mut self, s: Station) {
        let stream = s.stream;
        let t = stream.tally;
        let silence = stream.silence;
        let n = s.numbers;
        self.put_words(&plan_words(stream.plan));
        self.put_words(&[s.room, stream.generator]);
        self.put_words(&phase_words(stream.phase));
        let owed = u32::from(t.owed);
        self.put_words(&[t.conforming, t.defective, t.passed, t.missed, owed, t.last]);
        self.put_words(&[silence.ticks, u32::from(silence.heard)]);
        self.put_words(&[n.told, n.oldest, n.next, n.lost]);
        self.put_words(&waiting_words(stream.waiting));
    }

    // The answer, and the record after the call.
    pub(crate) fn put_turn(&mut self, turn: Turn) {
        let v = frames::answer_values(turn.answer);
        let (refusal, kind) = (u32::from(v.refusal), u32::from(v.kind));
        self.put_words(&[refusal, kind, v.number, v.unit, v.value]);
        self.put_record(turn.station);
    }

    // The line, with a line feed in the place of its last space, or alone; the next one begins anew.
    pub(crate) fn line(&mut self) -> &[u8] {
        let last = self.len.saturating_sub(1);
        self.bytes[last] = b'\n';
        self.len = 0;
        &self.bytes[..=last]
    }
}
