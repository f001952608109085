// How the calls of a form in memory are counted.
ghost use Rattle.std.specs.Prelude.{◌≡◌, ◌≤◌};
ghost use Rattle.frs_disk.specs.Disk.{Rose};
ghost use Rattle.frs_disk.specs.Faults.{count_after_one};
ghost use Rattle.frs_disk.specs.MemOutside.{new_tally, next_fails};

use super::Tally;
use crate::disk::Fault;

impl Tally {
    // No call was made.
    pub(super) fn of(failing: Vec<u64>) -> Tally
        ensures { result ≡ new_tally failing }
    {
        Tally {
            failing,
            made: 0,
            faults: 0,
        }
    }

    // Whether the next call is one of those that fail.
    pub(super) fn next_fails(&self) -> bool
        ensures { result ≡ next_fails self.now }
    {
        self.failing.contains(&self.made.saturating_add(1))
    }

    // A call was done.
    pub(super) fn done(&mut self)
        ensures { self.new ≡ record self.old { made = count_after_one self.old.made } }
    {
        self.made = self.made.saturating_add(1);
    }

    // A call has failed.
    pub(super) fn failed(&mut self) -> Fault
        ensures counted { self.new
            ≡ record self.old {
              made = count_after_one self.old.made;
              faults = count_after_one
                  self.old.faults;
            } }
        ensures rose { (self.old.faults ≤ self.new.faults) × Rose self.old.faults self.new.faults }
        ensures fault { result ≡ Fault.Failed }
    {
        self.made = self.made.saturating_add(1);
        self.faults = self.faults.saturating_add(1);
        Fault::Failed
    }
}
