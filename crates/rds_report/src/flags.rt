ghost use Rattle.std.specs.Prelude.{◌≡◌, ◌==◌, ℕ, Bool, ◌<◌, ◌+◌, if◌then◌else◌};
ghost use Rattle.rds_report.specs.Items.{flags as flags_of};

/// Sets the flag of a number, counted from 1, where there is one.
pub fn set_flag(flags: &mut [bool], number: u64, value: bool)
    ensures { (test : ℕ → Bool) (m : ℕ) → flags.old ≡ flags_of test m →
        flags.new ≡ flags_of (λ n. if number == n then value else test n) m }
{
    if 1 <= number && number <= flags.len() as u64 {
        flags[(number - 1) as usize] = value;
    }
}

/// The flag at a place, counted from 0, or none that is set.
pub fn flag(flags: &[bool], place: u32) -> bool
    ensures { (test : ℕ → Bool) (m : ℕ) → flags.now ≡ flags_of test m → place < m → result ≡ test (place + 1) }
{
    flags.get(place as usize).copied().unwrap_or(false)
}
