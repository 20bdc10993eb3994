ghost use Rattle.std.specs.Prelude.{◌≡◌};
ghost use Rattle.pb_pmem.specs.Count.{Rose, raised};

/// Counts one fault more.
pub(crate) fn count_fault(faults: &mut u64)
    ensures counted { faults.new ≡ raised faults.old }
    ensures rose { Rose faults.old faults.new }
{
    *faults = faults.saturating_add(1);
}
