// For tests: the generator's step and the place, for a program in C to call (tests/places.c).
#![tactic(auto)]

ghost use Rattle.std.specs.Prelude.{◌≡◌};
ghost use Rattle.rules.specs.Draw.{step, place};

#[unsafe(no_mangle)]
pub extern "C" fn draw_step(s: u32) -> u32
    ensures { result ≡ step s }
{
    draw::step(s)
}

#[unsafe(no_mangle)]
pub extern "C" fn draw_place(s: u32, len: u16) -> u32
    ensures { result ≡ place s len }
{
    draw::place(s, len)
}
