//! Counts of faults.
ghost use Rattle.std.specs.Prelude.{◌≡◌, ◌≤◌, ◌<◌};
ghost use Rattle.hk_base.specs.Faults.{Rose};

/// Returns a yard's count after a disk that counted `own` faults was given back.
pub(crate) fn count_after_giving(faults: u64, own: u64) -> u64
    ensures later { faults ≤ result }
    ensures rose { 0 < own → Rose faults result }
    ensures same { own ≡ 0 → result ≡ faults }
{
    if own > 0 {
        faults.saturating_add(1)
    } else {
        faults
    }
}
