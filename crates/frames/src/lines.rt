// Where a line ends. A text and an index go together, and not the rest of the text: an end is told from the start of it (LineEnd), and
// the line is cut there.
ghost use Rattle.std.specs.Prelude.{true, false, ◌≡◌, ℕ, ◌+◌, ◌≤◌, ◌<◌, ◌==◌, length, get_or};
ghost use Rattle.std.specs.List.{list_any, position};
ghost use Rattle.frames.specs.Course.{LineEnd};

// A line feed among eight characters: one comparison of eight bytes, once compiled.
fn feed_in_eight(s: &[u8], i: usize) -> bool
    requires { i + 8 ≤ length s.now }
    ensures { result ≡ false → (k : ℕ) → k < i + 8 → i ≤ k → get_or s.now k 0 ≡ 10 → ⊥ }
{
    s[i..i + 8].contains(&b'\n')
}

fn first_feed(s: &[u8]) -> Option<usize>
    ensures { result ≡ position (λ b. b == 10) s.now }
{
    s.iter().position(|&b| b == b'\n')
}

// The first eight characters of several that have one.
fn first_eight(eights: &[[u8; 8]]) -> Option<usize>
    ensures { result ≡ position (list_any (λ b. b == 10)) eights.now }
{
    eights.iter().position(|eight| eight.contains(&b'\n'))
}

// Eight characters after the other, as long as none of them is a line feed.
fn skipped(s: &[u8], from: usize) -> usize
    requires { from ≤ length s.now }
    ensures { (from ≤ result) × (result ≤ length s.now) × ((k : ℕ) → k < result → from ≤ k → get_or s.now k 0 ≡ 10 → ⊥) }
{
    let (eights, _) = s[from..].as_chunks::<8>();
    match first_eight(eights) {
        Some(i) => from + 8 * i,
        None => from + 8 * eights.len(),
    }
}

// The index of the line feed at or after an index, or the length, and no None, where none is left: the walk ends there by itself, and
// LineEnd says both of one number. Few lines are looked through for it.
#[cold]
fn scanned_end(s: &[u8], from: usize) -> usize
    requires { from ≤ length s.now }
    ensures { LineEnd s.now from result }
{
    let at = skipped(s, from);
    match first_feed(&s[at..]) {
        Some(i) => at + i,
        None => s.len(),
    }
}

// The same, looked for first where the frames of most lines end: behind 2 characters, and behind 11.
pub fn line_end(s: &[u8], from: usize) -> usize
    requires { from ≤ length s.now }
    ensures { LineEnd s.now from result }
{
    if s.len() - from < 12 {
        return scanned_end(s, from);
    }
    if (s[from] == b'\n') | (s[from + 1] == b'\n') {
        return scanned_end(s, from);
    }
    if s[from + 2] == b'\n' {
        return from + 2;
    }
    let early = feed_in_eight(s, from + 3);
    if early | (s[from + 11] != b'\n') {
        return scanned_end(s, from);
    }
    from + 11
}
