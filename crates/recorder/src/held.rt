// What has come and is not answered.
ghost use Rattle.std.specs.Prelude.{◌≡◌, [], ◌++◌, ◌+◌, ◌≤◌, min, length, take, drop};
ghost use Rattle.rules.specs.Tests.{pick};
ghost use Rattle.recorder.specs.Course.{held_most, kept};

use std::marker::Model;

// The most that a read brings.
pub const CHUNK: usize = 8192;

// What tells a line from one of 80 characters.
const HELD: usize = 81;

// A read's bytes, and what was held of a line before it with them.
const TEXT: usize = HELD + CHUNK;

// The first bytes of a memory, which is fixed, since the program has no heap. Clauses see the list of them.
#[derive(Drop)]
pub struct Text {
    bytes: [u8; TEXT],
    len: usize,
}

impl Model for Text {
    ghost use Rattle.std.specs.Prelude.{ℕ, ◌≤◌, List, length, take};

    ghost Value = { List ℕ };

    ghost view = { λ t. take t.len t.bytes };

    ghost invariant = { λ t. t.len ≤ length t.bytes };
}

impl Text {
    pub fn new() -> Self
        ensures { result ≡ [] }
    {
        Text {
            bytes: [0; TEXT],
            len: 0,
        }
    }

    pub fn as_slice(&self) -> &[u8]
        ensures { result.now ≡ self.now }
    {
        &self.bytes[..self.len]
    }

    // Bytes put behind what is there.
    pub fn put(&mut self, part: &[u8])
        requires { length self.old + length part.now ≤ TEXT }
        ensures { self.new ≡ self.old ++ part.now }
    {
        let to = self.len + part.len();
        self.bytes[self.len..to].copy_from_slice(part);
        self.len = to;
    }

    // What is kept of the bytes from an index on is moved to the front.
    pub fn keep(&mut self, from: usize, more: bool)
        requires { from ≤ length self.old }
        ensures { self.new ≡ kept more (drop from self.old) }
    {
        let n = kept(more, self.len - from);
        move_front(&mut self.bytes, from, n);
        self.len = n;
    }
}

// All that is left where an answer had no room; else no more of a line that has not ended than tells it from one of 80 characters.
fn kept(more: bool, left: usize) -> usize
    ensures { (result ≡ pick more left (min held_most left)) × (result ≤ left) }
{
    if more { left } else { left.min(HELD) }
}

// Characters from an index on, moved to the front. By an index: what is moved and where it goes are parts of one text, which cannot be
// lent twice.
fn move_front(text: &mut [u8], from: usize, n: usize)
    requires { from + n ≤ length text.old }
    ensures { take n text.new ≡ take n (drop from text.old) }
{
    text.copy_within(from..from + n, 0);
}
