// The frame that a line is.
ghost use Rattle.std.specs.Prelude.{◌≡◌, ◌+◌, ◌*◌, ◌≤◌, length, None};
ghost use Rattle.rules.specs.Frames.{hex, word, bare_frame, one_word_frame, table_frame, seeded_frame, plan_frame, seven_word_frame, frame_of, read_line};
ghost use Rattle.frames.specs.Weights.{sum, as_word};

use crate::digits::Weights;
use rules::{Call, Frame, Plan};

// A line, its line feed left off, and what its digits weigh.
#[derive(Clone, Copy)]
pub struct Line<'a> {
    pub weights: Weights<'a>,
    pub text: &'a [u8],
}

// A code is a number and no enum: whatever two digits say is read, and what is no frame's is None.
#[tactic(auto, using(std::proofs::lemmas::Bool::Decides::nat_tests), unfolding(rules::specs::Frames::bare_frame))]
fn bare_frame(code: u32) -> Option<Frame>
    ensures { result ≡ bare_frame code }
{
    match code {
        4 => Some(Frame::Call(Call::Interrupt)),
        5 => Some(Frame::Call(Call::CheckFind)),
        6 => Some(Frame::Call(Call::Tick)),
        7 => Some(Frame::Call(Call::Take)),
        _ => None,
    }
}

#[tactic(auto, using(std::proofs::lemmas::Bool::Decides::nat_tests), unfolding(rules::specs::Frames::one_word_frame, rules::specs::Frames::is_word))]
fn one_word_frame(code: u32, a: u32) -> Option<Frame>
    ensures { result ≡ one_word_frame code a }
{
    match code {
        2 => Some(Frame::Call(Call::Unit(a))),
        3 => Some(Frame::Call(Call::Result(a))),
        10 => Some(Frame::StationNumber(a)),
        _ => None,
    }
}

// A plan and a seed, or a plan and 0 or 1, on demand.
#[tactic(auto, using(std::proofs::lemmas::Bool::Decides::nat_tests, crate::proofs::Tests::both), unfolding(rules::specs::Frames::plan_frame))]
fn plan_frame(code: u32, plan: Plan, last: u32) -> Option<Frame>
    ensures { result ≡ plan_frame code plan last }
{
    match code {
        1 => Some(Frame::Open { plan, seed: last }),
        9 if last <= 1 => Some(Frame::Call(Call::Change {
            plan,
            demand: last == 1,
        })),
        _ => None,
    }
}

impl Line<'_> {
    // N digits from an index on, summed with no test between them. The loop counts: two must-fail edits read a digit out of turn by it.
    #[tactic(auto, using(crate::proofs::HexSum::sum_fits), unfolding(crate::specs::Weights::sum))]
    fn sum<const N: usize>(self, from: usize) -> u64
        requires { (N ≤ 8) × (from + N ≤ length self.text.now) }
        ensures { result ≡ sum self.entry.text.now from N }
    {
        let mut sum = 0;
        for k in 0..N {
            sum = sum * 16 + self.weights.of(self.text[from + k]);
        }
        sum
    }

    // The number that they are.
    #[tactic(auto, using(std::proofs::lemmas::Bool::Decides::nat_tests, crate::proofs::HexSum::hex_sum), unfolding(rules::specs::Frames::is_word, crate::specs::Weights::limited))]
    fn hex<const N: usize>(self, from: usize) -> Option<u32>
        requires { (N ≤ 8) × (from + N ≤ length self.text.now) }
        ensures { result ≡ as_word (hex self.entry.text.now from N) }
    {
        u32::try_from(self.sum::<N>(from)).ok()
    }

    fn code(self) -> Option<u32>
        requires { 2 ≤ length self.text.now }
        ensures { result ≡ as_word (hex self.entry.text.now 0 2) }
    {
        self.hex::<2>(0)
    }

    // Word j of the line. A call of it would cost some 15 instructions a frame.
    #[tactic(auto, using(std::proofs::lemmas::Bool::Decides::nat_tests), unfolding(rules::specs::Frames::spaced, rules::specs::Frames::is_word))]
    #[inline(always)]
    fn word(self, j: usize) -> Option<u32>
        requires { 11 + 9 * j ≤ length self.text.now }
        ensures { result ≡ as_word (word self.entry.text.now j) }
    {
        if self.text[2 + 9 * j] != b' ' {
            return None;
        }
        self.hex::<8>(3 + 9 * j)
    }

    // Left to the compiler it is a call, and then the line lies in memory for it: 13 instructions of every frame.
    #[tactic(auto, using(std::proofs::lemmas::Bool::Decides::nat_tests, crate::proofs::Tests::both), unfolding(rules::specs::Frames::table_frame, rules::specs::Frames::is_word))]
    #[inline(always)]
    fn table_frame(self, seed: Option<u32>) -> Option<Frame>
        requires { 38 ≤ length self.text.now }
        ensures { let l = self.entry.text.now in result ≡ table_frame (hex l 0 2) (word l 0) (word l 1) (word l 2) (word l 3) seed }
    {
        if self.code()? != 8 {
            return None;
        }
        Some(Frame::OpenTable {
            kind: self.word(0)?,
            letter: self.word(1)?,
            aql: self.word(2)?,
            period: self.word(3)?,
            seed,
        })
    }

    #[tactic(auto, using(std::proofs::lemmas::Bool::Decides::nat_tests), unfolding(rules::specs::Frames::seeded_frame, rules::specs::Frames::is_word))]
    fn seeded_frame(self) -> Option<Frame>
        requires { 47 ≤ length self.text.now }
        ensures { let l = self.entry.text.now in result ≡ seeded_frame (hex l 0 2) (word l 0) (word l 1) (word l 2) (word l 3) (word l 4) }
    {
        let seed = self.word(4)?;
        self.table_frame(Some(seed))
    }

    #[tactic(auto, using(std::proofs::lemmas::Bool::Decides::nat_tests, crate::proofs::Tests::both), unfolding(rules::specs::Frames::seven_word_frame, rules::specs::Frames::plan_frame, rules::specs::Frames::is_word))]
    fn seven_word_frame(self) -> Option<Frame>
        requires { 65 ≤ length self.text.now }
        ensures { let l = self.entry.text.now in result ≡ seven_word_frame (hex l 0 2) (word l 0) (word l 1) (word l 2) (word l 3) (word l 4) (word l 5) (word l 6) }
    {
        let code = self.code()?;
        let plan = Plan {
            kind: self.word(0)?,
            n: self.word(1)?,
            i: self.word(2)?,
            s: self.word(3)?,
            x: self.word(4)?,
            period: self.word(5)?,
        };
        plan_frame(code, plan, self.word(6)?)
    }

    // A frame of four words or more.
    #[tactic(auto, using(std::proofs::lemmas::Bool::Decides::nat_tests), unfolding(rules::specs::Frames::frame_of))]
    fn longer_frame(self) -> Option<Frame>
        requires { (length self.text.now ≡ 2 → ⊥) × (length self.text.now ≡ 11 → ⊥) }
        ensures { result ≡ frame_of self.entry.text.now }
    {
        match self.text.len() {
            38 => self.table_frame(None),
            47 => self.seeded_frame(),
            65 => self.seven_word_frame(),
            _ => None,
        }
    }

    // The frame that the line is. No frame has over 80 characters, so that a longer line needs no test of its own.
    #[tactic(auto, using(std::proofs::lemmas::Bool::Decides::nat_tests), unfolding(rules::specs::Frames::frame_of, rules::specs::Frames::read_line, rules::specs::Frames::bare_frame, rules::specs::Frames::one_word_frame, rules::specs::Frames::is_word))]
    pub fn frame(self) -> Option<Frame>
        ensures { result ≡ read_line self.entry.text.now }
    {
        match self.text.len() {
            2 => bare_frame(self.code()?),
            11 => one_word_frame(self.code()?, self.word(0)?),
            _ => self.longer_frame(),
        }
    }
}
