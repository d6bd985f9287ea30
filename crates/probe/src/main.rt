// One call on any record and any queue memory, for tests: a request a line, all that the call leaves a line.
#![tactic(auto)]

mod request;
mod shown;

use request::Request;
use shown::Shown;
use std::io;
use std::io::{Read, Write};

// The most that a read brings.
const CHUNK: usize = 16_384;

// A line that is no request is answered with an empty one. Each answer goes out at once, since a peer may wait for it, and in one write, so
// that no other's comes between where several probes write to one file.
fn answer<W: Write>(writer: &mut W, request: &mut Request, shown: &mut Shown) -> io::Result<()> {
    if let Some((turn, queue)) = request.turn() {
        shown.put_turn(turn);
        shown.put_words(queue);
    }
    writer.write_all(shown.line())
}

// The bytes of a read; a line feed ends a request.
fn feed<W: Write>(
    writer: &mut W,
    chunk: &[u8],
    request: &mut Request,
    shown: &mut Shown,
) -> io::Result<()> {
    for b in chunk {
        request.read(*b);
        if *b == b'\n' {
            answer(writer, request, shown)?;
            request.clear();
        }
    }
    Ok(())
}

// That the turns are counted is for the proof alone: no run uses them up.
fn main(rt: HostRuntime) -> io::Result<()> {
    let mut reader = rt.stdin();
    let mut writer = rt.stdout();
    let mut chunk = [0; CHUNK];
    let mut request = Request::new();
    let mut shown = Shown::new();
    for _ in 0..=u64::MAX {
        let n = reader.read(&mut chunk)?;
        if n == 0 {
            break;
        }
        feed(&mut writer, &chunk[..n], &mut request, &mut shown)?;
    }
    Ok(())
}
