// What a text makes of the session, and the answers to the lines that end in it.
ghost use Rattle.std.specs.Prelude.{◌≡◌, ◌≤◌, length};
ghost use Rattle.frames.specs.Replies.{session_of};
ghost use Rattle.frames.specs.Walks.{Walks};
ghost use Rattle.frames.specs.Weights.{Weighs};

use crate::digits::{Weights, fill};
use crate::lines::line_end;
use crate::printing::{answer_line, refusal_line};
use crate::reading::Line;
use crate::session::{Standing, line_reply};

// How much of the text was answered, and how many bytes are the answers.
#[derive(Drop)]
pub struct Walked {
    pub standing: Standing,
    pub from: usize,
    pub at: usize,
}

// A line put into its room. The array is assigned: copy_from_slice took 38 instructions more. Nothing is known of what is written to a
// chunk that is borrowed from a part of the output, so that this is a function.
fn put(room: &mut [u8], line: [u8; 33])
    requires { length room.old ≡ 33 }
    ensures { room.new ≡ line }
{
    let Some(room) = room.as_mut_array::<33>() else {
        unreachable!()
    };
    *room = line;
}

// The lines one after the other, as long as the output has room for another answer. Here alone the whole record goes from line to
// line: with one caller of line_reply it is never laid out in memory for a call. So this loop puts the answers too, and each kind in an
// arm of its own, by which a refusal leaves the record where it is: a function between took 11 instructions more. It ends with a return
// at a line that has not ended, and not with a break: that took up to 5 more. Text and output are gone over at different paces, and from
// and at are answered, so that no iterator counts them.
fn walk_lines(
    standing: Standing,
    q: &mut [u32],
    weights: Weights,
    text: &[u8],
    out: &mut [u8],
) -> Walked
    ensures { Walks (session_of standing q.old) text.now result q.new out.old out.new }
{
    let mut s = standing;
    let mut from = 0;
    let mut at = 0;
    while (from < text.len()) & (33 <= out.len() - at) {
        let end = line_end(text, from);
        if end == text.len() {
            return Walked {
                standing: s,
                from,
                at,
            };
        }
        let room = &mut out[at..at + 33];
        let line = Line {
            weights,
            text: &text[from..end],
        };
        match line_reply(s, q, line) {
            Ok(replied) => {
                s = replied.standing;
                put(room, answer_line(replied.answer));
            }
            Err(refusal) => put(room, refusal_line(refusal)),
        }
        at += 33;
        from = end + 1;
    }
    Walked {
        standing: s,
        from,
        at,
    }
}

// Every line that ends in a text, in order, as many as the output has room to answer. The table of weights is the caller's memory and
// is filled here, so that nothing is asked of what it holds.
pub fn walk(
    standing: Standing,
    q: &mut [u32],
    weights: &mut [u64; 256],
    text: &[u8],
    out: &mut [u8],
) -> Walked
    ensures { Walks (session_of standing q.old) text.now result q.new out.old out.new × Weighs weights.new }
{
    fill(weights);
    walk_lines(standing, q, Weights { table: weights }, text, out)
}
