//! Counts of faults.
ghost use Rattle.std.specs.Prelude.{◌≡◌, ◌≤◌, if◌then◌else◌};
ghost use Rattle.ali_base.specs.Faults.{one_more};

/// The count after a call that failed or not. It stays at its last value.
pub fn count_fault(faults: u64, failed: bool) -> u64
    ensures value { result ≡ (if failed then one_more faults else faults) }
    ensures later { faults ≤ result }
{
    if failed {
        faults.saturating_add(1)
    } else {
        faults
    }
}
