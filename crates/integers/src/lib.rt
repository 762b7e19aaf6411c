// How far apart two i32 lie, which Rust calls `abs_diff`, and how far one lies above another. Relies on nothing but std.
#![tactic(auto)]

ghost use Rattle.std.specs.Prelude.{◌≡◌, ◌<◌, ◌≤ℤ◌};
ghost use Rattle.std.specs.Option.{SomeIff};
ghost use Rattle.integers.specs.Distance.{distance};

// How far `a` and `b` lie apart, which any two i32 do by less than 2^32: larger less smaller, with wrap-around.
pub fn abs_diff(a: i32, b: i32) -> u32
    ensures { result ≡ distance a b }
{
    if a <= b {
        b.cast_unsigned().wrapping_sub(a.cast_unsigned())
    } else {
        a.cast_unsigned().wrapping_sub(b.cast_unsigned())
    }
}

// How far `to` lies above `from`, where that is less than `WINDOW`: its place in a window of so many values from `from` on.
pub fn ahead<const WINDOW: usize>(from: i32, to: i32) -> Option<usize>
    ensures { SomeIff result ((from ≤ℤ to) × (distance from to < WINDOW)) (distance from to) }
{
    if to < from {
        return None;
    }
    let far = abs_diff(from, to) as usize;
    (far < WINDOW).then_some(far)
}
