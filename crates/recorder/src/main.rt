// Frames from standard input, one a line; the answer to each goes to standard output as soon as its line has ended.
#![tactic(auto)]

mod held;

ghost use Rattle.std.specs.Prelude.{true, false, [], ◌++◌, ◌≡◌, ◌↔◌, ◌+◌, ◌≤◌, IsNone, IsTrue, is_none, unwrap_or, length, take};
ghost use Rattle.std.specs.Io.KnownBytes.{Appends, Consumes};
ghost use Rattle.rules.specs.Frames.{new_session, last_text};
ghost use Rattle.frames.specs.Replies.{session_of, new_standing};
ghost use Rattle.recorder.specs.Turns.{count, IsLast, Moves, Brings, Hands, Answers, no_room, held, left, Ready, Goes, Ran, Served};

use frames::{Standing, Walked};
use held::{CHUNK, Text};
use rules::Refusal;
use std::io;
use std::io::{ErrorKind, Read, Write};

// The answers to a chunk of common frames. Where more are due they go out in several writes: room for the most that there can be would
// take longer to clear than all else that the program does before its first read.
const OUT: usize = 32769;

// The memory of a run: the station's queue, the table of weights that a walk fills, what a read brings, what is not answered, and the
// answers of a turn. It is made once, and lent from there on: no call copies it.
#[derive(Drop)]
struct Memory {
    queue: [u32; 24],
    weights: [u64; 256],
    chunk: [u8; CHUNK],
    text: Text,
    out: [u8; OUT],
}

impl Memory {
    fn new() -> Self
        ensures queue { result.queue ≡ new_session.queue }
        ensures chunk { length result.chunk ≡ 8192 }
        ensures text { result.text ≡ [] }
        ensures out { length result.out ≡ 32769 }
    {
        Memory {
            queue: frames::new_queue(),
            weights: [0; 256],
            chunk: [0; CHUNK],
            text: Text::new(),
            out: [0; OUT],
        }
    }
}

// How many bytes of a text the writes took, and whether that is all. Not a Result: what a turn promises counts the bytes in both cases.
#[derive(Drop)]
struct Handed {
    bytes: usize,
    all: bool,
}

// Where the program stands after a turn: more is whether an answer had no room, so that lines may be left in the text; came what the
// turn's read brought, handed what the writes took of the turn's answers.
#[derive(Drop)]
struct Turned {
    standing: Standing,
    more: bool,
    came: Option<usize>,
    handed: Handed,
}

// How many bytes a read or a write moved: a call that failed has moved none.
fn count(got: io::Result<usize>, buf: &[u8]) -> usize
    ensures { (result ≡ count got (length buf.now)) × (result ≤ length buf.now) }
{
    got.unwrap_or(0).min(buf.len())
}

// Whether a read or a write was the last. A call that a signal interrupted has moved nothing and is made again.
fn is_over(got: io::Result<usize>) -> bool
    ensures { IsTrue result ↔ IsLast got }
{
    match got {
        Ok(n) => n == 0,
        Err(e) => e.kind() != ErrorKind::Interrupted,
    }
}

// How many bytes a read or a write moved, or None where it was the last: at the end of the input, or where it failed.
fn came_to(got: io::Result<usize>, buf: &[u8]) -> Option<usize>
    ensures { Moves got (length buf.now) result }
{
    if is_over(got) {
        None
    } else {
        Some(count(got, buf))
    }
}

// Every byte in order and once, until a write fails. That the turns are counted is for the proof alone, which asks that every loop
// ends: no run uses them up. The library's write_all does not say how many bytes went out before a failure.
fn write_all<W: Write>(writer: &mut W, text: &[u8]) -> Handed
    ensures hands { Hands text.now result }
    ensures bytes { Appends (W.contents writer.old) (W.contents writer.new) (take result.bytes text.now) }
{
    let mut done = 0;
    for _ in 0..=u64::MAX {
        if done == text.len() {
            return Handed {
                bytes: done,
                all: true,
            };
        }
        let rest = &text[done..];
        let Some(n) = came_to(writer.write(rest), rest) else {
            break;
        };
        done += n;
    }
    Handed {
        bytes: done,
        all: false,
    }
}

// What the next read brings; while lines are left, nothing is read, since their peer waits.
fn brought<R: Read>(reader: &mut R, more: bool, chunk: &mut [u8]) -> Option<usize>
    ensures brings { Brings more (length chunk.old) result }
    ensures bytes { Consumes (R.remaining reader.old) (R.remaining reader.new) (take (unwrap_or result 0) chunk.new) }
{
    if more {
        return Some(0);
    }
    let got = reader.read(chunk);
    came_to(got, chunk)
}

// The answer to a last line without line feed, which is ill-formed; an empty one is none.
fn end(line: &[u8], out: &mut [u8]) -> usize
    requires { 33 ≤ length out.old }
    ensures { (result ≤ length out.new) × (take result out.new ≡ last_text line.now) }
{
    if line.is_empty() {
        return 0;
    }
    let answer = frames::answer_line(Err(Refusal::IllFormed));
    out[..33].copy_from_slice(&answer);
    33
}

// What is answered in a turn: the lines that end in the text, and at the end of the input the line that is left.
#[tactic(auto, using(frames::proofs::Walking::gone_most))]
fn answered(standing: Standing, over: bool, memory: &mut Memory) -> Walked
    ensures answers { Answers over (session_of standing memory.old.queue) memory.old.text result memory.new.queue memory.old.out memory.new.out }
    ensures within { (result.from ≤ length memory.old.text) × (result.at ≤ length memory.old.out) }
    ensures text { memory.new.text ≡ memory.old.text }
{
    if over {
        let last = end(memory.text.as_slice(), &mut memory.out);
        return Walked {
            standing,
            from: 0,
            at: last,
        };
    }
    frames::walk(
        standing,
        &mut memory.queue,
        &mut memory.weights,
        memory.text.as_slice(),
        &mut memory.out,
    )
}

// Whether an answer had no room, in a turn that is not the last.
fn no_room(over: bool, len: usize, at: usize) -> bool
    requires { at ≤ len }
    ensures { result ≡ no_room over len at }
{
    !over & (len - at < 33)
}

// What a read brought, and the answers to the lines that it ended in one write.
fn turn<W: Write>(
    writer: &mut W,
    before: Turned,
    came: Option<usize>,
    memory: &mut Memory,
) -> Turned
    requires { Ready before memory.old.text × Brings before.more (length memory.old.chunk) came }
    ensures goes { (result.came ≡ came) × Goes (session_of before.standing memory.old.queue) (held before memory.old.text) (left before memory.old.text ++ take (unwrap_or came 0) memory.old.chunk) result memory.new.queue memory.new.text memory.new.out }
    ensures bytes { Appends (W.contents writer.old) (W.contents writer.new) (take result.handed.bytes memory.new.out) }
{
    memory.text.put(&memory.chunk[..came.unwrap_or(0)]);
    let over = came.is_none();
    let w = answered(before.standing, over, memory);
    let handed = write_all(writer, &memory.out[..w.at]);
    let more = no_room(over, memory.out.len(), w.at);
    memory.text.keep(w.from, more);
    let standing = w.standing;
    Turned {
        standing,
        more,
        came,
        handed,
    }
}

// Before the first read.
fn start() -> Turned
    ensures { (result.standing ≡ new_standing) × (result.more ≡ false) }
{
    let standing = frames::new_standing();
    Turned {
        standing,
        more: false,
        came: Some(0),
        handed: Handed {
            bytes: 0,
            all: true,
        },
    }
}

// The turns to the last: at the end of the input, or where a write failed. They are counted for the proof alone, as in write_all.
fn run<R: Read, W: Write>(reader: &mut R, writer: &mut W, memory: &mut Memory) -> Turned
    requires { (memory.old.queue ≡ new_session.queue) × (memory.old.text ≡ []) }
    ensures ran { Ran result memory.new.queue memory.new.text memory.new.out (R.remaining reader.old) (R.remaining reader.new) (W.contents writer.old) (W.contents writer.new) }
    ensures program { IsNone result.came → result.handed.all ≡ true → Served (R.remaining reader.old) (R.remaining reader.new) (W.contents writer.old) (W.contents writer.new) }
{
    let mut t = start();
    for _ in 0..=u64::MAX {
        let came = brought(reader, t.more, &mut memory.chunk);
        t = turn(writer, t, came, memory);
        if t.came.is_none() | !t.handed.all {
            break;
        }
    }
    t
}

fn main(rt: HostRuntime) {
    let mut memory = Memory::new();
    run(&mut rt.stdin(), &mut rt.stdout(), &mut memory);
}
