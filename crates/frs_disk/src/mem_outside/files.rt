// Files of commands in memory.
ghost use Rattle.std.specs.Prelude.{◌≡◌, ◌<◌, ◌^◌, ◌||◌, ℕ, List, true, Some, None, length, is_none, IsTrue, IfOk, MatchOption};
ghost use Rattle.frs_disk.specs.Disk.{HasCause};
ghost use Rattle.frs_disk.specs.Faults.{FailsExactly};
ghost use Rattle.frs_disk.specs.Outside.{are_short};
ghost use Rattle.frs_disk.specs.MemOutside.{file_named, files_in, files_tally, new_tally, next_fails, tally_after};

use super::{MemFiles, Tally};
use crate::disk::Fault;
use crate::name::Name;
use crate::outside::Files;
use frs_types::NoMemory;
use std::alloc::Global;

impl MemFiles {
    /// These files, each of fewer than 2^32 bytes. Of two files with one name the first counts. The calls with the
    /// numbers in `failing`, counted from 1, will fail; a call that is refused for memory isn't counted.
    pub fn of(
        alloc: Global,
        files: Vec<(Name, Vec<u8>)>,
        failing: Vec<u64>,
    ) -> Result<MemFiles, NoMemory>
        requires { IsTrue (are_short files.items) }
        ensures files { IfOk result (λ made. (n : List ℕ)
            → file_named (files_in made) n ≡ file_named files.items n) }
        ensures faults { IfOk result (λ made. (files_tally made).faults ≡ 0) }
        ensures tally { IfOk result (λ made. files_tally made ≡ new_tally failing) }
    {
        let _ = alloc;
        Ok(MemFiles {
            files,
            tally: Tally::of(failing),
        })
    }
}

impl Files for MemFiles {
    ghost tells = { λ _. true };

    ghost file = { λ m n. file_named (files_in m) n };

    ghost faults = { λ m. (files_tally m).faults };

    fn read(&mut self, alloc: Global, name: &Name) -> Result<Vec<u8>, Fault>
        ensures bytes { IfOk result (λ bytes. file_named (files_in self.old) name.now
            ≡ Some bytes.items) }
        ensures short { IfOk result (λ bytes. length bytes.items < 2 ^ 32) }
        ensures kept { (n : List ℕ)
            → file_named (files_in self.new) n ≡ file_named (files_in self.old) n }
        ensures cause { HasCause (files_tally self.old).faults
            (files_tally self.new).faults result }
        ensures planned { FailsExactly
            (next_fails (files_tally self.old) || is_none
            (file_named (files_in self.old) name.now)) result }
        ensures counted { files_tally self.new ≡ tally_after result (files_tally self.old) }
    {
        if self.tally.next_fails() {
            return Err(self.tally.failed());
        }
        let Some(bytes) = find_named(&self.files, name) else {
            return Err(self.tally.failed());
        };
        let copy = bytes.to_vec(alloc)?;
        self.tally.done();
        Ok(copy)
    }
}

// The bytes of the first file with a name.
fn find_named<'a>(files: &'a [(Name, Vec<u8>)], name: &Name) -> Option<&'a [u8]>
    ensures { MatchOption result (file_named files.now name.now
        ≡ None) (λ bytes. file_named files.now name.now ≡ Some bytes.now) }
{
    let mut rest = files;
    while let [file, after @ ..] = rest {
        if file.0.as_str() == name.as_str() {
            return Some(&file.1);
        }
        rest = after;
    }
    None
}
