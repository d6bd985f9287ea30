// Upper-case hex digits, read and printed.
ghost use Rattle.std.specs.Prelude.{◌≡◌, ◌≤◌, ◌^◌};
ghost use Rattle.rules.specs.Frames.{glyph, two_digits, eight_digits};
ghost use Rattle.frames.specs.Weights.{weight, Weighs};

// What a byte that is no digit weighs: more than any eight digits. A number and no Option, since the sum is tested once at its end, and
// not at each digit.
const NONE: u64 = 4294967296;

// By ranges: the library's to_digit takes small letters too.
#[tactic(auto, using(std::proofs::lemmas::Bool::Decides::nat_tests), unfolding(crate::specs::Weights::weight, rules::specs::Frames::digit))]
fn weight(b: u8) -> u64
    ensures { (result ≡ weight b) × (result ≤ 2 ^ 32) }
{
    match b {
        b'0'..=b'9' => b as u64 - 48,
        b'A'..=b'F' => b as u64 - 55,
        _ => NONE,
    }
}

// The table is the caller's memory: it is filled anew at each walk.
pub fn fill(weights: &mut [u64; 256])
    ensures { Weighs weights.new }
{
    for (b, w) in weights.iter_mut().enumerate() {
        *w = weight(b as u8);
    }
}

// A table that has the weight of every byte. A digit's weight is looked up in it: a constant table would be laid out anew at each use,
// and two tests of each digit cost more than the look.
#[derive(Clone, Copy)]
pub struct Weights<'a> {
    pub table: &'a [u64; 256],
    ghost all: { Weighs table.now },
}

impl Weights<'_> {
    #[tactic(auto, using(crate::proofs::HexSum::weighs_at))]
    pub fn of(self, b: u8) -> u64
        ensures { (result ≡ weight b) × (result ≤ 2 ^ 32) }
    {
        self.table[b as usize]
    }
}

// The last digit of a number, as it is printed: a match over its range costs 28 instructions more where an entry is taken.
fn glyph(v: u32) -> u8
    ensures { result ≡ glyph v }
{
    let d = v % 16;
    (48 + d + d / 10 * 7) as u8
}

// The two are written out: a loop over N digits, by division or by shifts, costs 69 instructions more where an entry is taken.
pub fn two_digits(v: u8) -> [u8; 2]
    ensures { result ≡ two_digits v }
{
    let w = v as u32;
    [glyph(w / 16), glyph(w)]
}

pub fn eight_digits(v: u32) -> [u8; 8]
    ensures { result ≡ eight_digits v }
{
    [
        glyph(v / 268435456),
        glyph(v / 16777216),
        glyph(v / 1048576),
        glyph(v / 65536),
        glyph(v / 4096),
        glyph(v / 256),
        glyph(v / 16),
        glyph(v),
    ]
}
