// The ticks from now to a deadline.
ghost use Rattle.std.specs.Prelude.{◌≡◌, ◌<◌, ◌^◌, pos, ◌-ℤ◌};

// A sound state's numbers are far below 2^61, so neither cast nor the difference loses a bit.
pub(crate) fn ticks_until(deadline: u64, now: u64) -> i64
    requires { (deadline < 2 ^ 61) × (now < 2 ^ 61) }
    ensures { result ≡ pos deadline -ℤ pos now }
{
    deadline as i64 - now as i64
}
