// What each call of a disk in memory does: it is noted, and then done unless the plan lets it fail.
ghost use Rattle.std.specs.Prelude.{◌≡◌, ◌⊎◌, ◌+◌, ℕ, [], ◌∷◌, true, length, MatchOption, OnOk, OnErr};
ghost use Rattle.std.specs.FinMap.{get, insert, remove};
ghost use Rattle.frs_disk.specs.Disk.{Image, IsNumber, HasCause, Elapses, Keeps};
ghost use Rattle.frs_disk.specs.Files.{image_of};
ghost use Rattle.frs_disk.specs.Calls.{after_call, after_write, TakesCall, RemovesMade, CreatesMade, Notes, MayTake, read_in_call, reads_in};
ghost use Rattle.frs_disk.specs.Faults.{FailsExactly, faults_after};
ghost use Rattle.frs_disk.specs.Plans.{files_of, record_of, fault_plan_of, widest_of, left_by, left_since_by, moment_of, removed_on, fails_at, Plays};

use super::MemDisk;
use crate::calls::{Call, Made};
use crate::disk::Fault;
use crate::table::{put_file, remove_file, write_file};
use frs_types::Sequence;

impl MemDisk {
    // A call that changes no file.
    pub(super) fn ask(&mut self, call: Call) -> Result<(), Fault>
        requires same { (i : Image) → after_call call i ≡ i }
        requires takes { (i old new : Image) → TakesCall call i old new → new ≡ old }
        requires removes { (n : ℕ) → RemovesMade true call n → ⊥ }
        requires creates { (n : ℕ) → CreatesMade true call n → ⊥ }
        ensures pending { (n : ℕ) → removed_on self.new n → removed_on self.old n }
        ensures crash { Keeps (left_by self.old) (left_by self.new) }
        ensures time { Elapses moment_of left_since_by left_by self.old self.new }
        ensures files { self.new.files ≡ self.old.files }
        ensures width { widest_of self.new ≡ widest_of self.old }
        ensures cause { HasCause self.old.faults self.new.faults result }
        ensures plays { Plays call self.old self.new result }
    {
        let fails = self.fails();
        note_asked(
            &mut self.calls,
            &mut self.reads,
            &mut self.faults,
            fails,
            call,
        )
    }

    // A call that sets the bytes of a file.
    pub(super) fn change(&mut self, call: Call, number: u64, next: Vec<u8>) -> Result<(), Fault>
        requires creates { (n : ℕ) → CreatesMade true call n → IsNumber n }
        requires sets { after_call call (files_of self.old)
            ≡ insert (files_of self.old) number next.items }
        requires removes { (n : ℕ) → RemovesMade true call n → ⊥ }
        requires no_read { read_in_call call ≡ [] }
        ensures changed { OnOk result (files_of self.new
            ≡ insert (files_of self.old) number next.items) }
        ensures files { OnErr result (self.new.files.items ≡ self.old.files.items) }
        ensures width { widest_of self.new ≡ widest_of self.old }
        ensures pending { (n : ℕ) → removed_on self.new n → removed_on self.old n }
        ensures leaves { MayTake call (files_of self.old) (left_by self.old) (left_by self.new) }
        ensures time { Elapses moment_of left_since_by left_by self.old self.new }
        ensures cause { HasCause self.old.faults self.new.faults result }
        ensures plays { Plays call self.old self.new result }
    {
        let fails = self.fails();
        note(&mut self.calls, &mut self.faults, fails, call)?;
        if put_file(&mut self.files, number, next).is_err() {
            self.calls.pop();
            return Err(Fault::Memory);
        }
        Ok(())
    }

    // A call that writes to a file. It costs what is written, and not what is there.
    pub(super) fn write_over(
        &mut self,
        call: Call,
        number: u64,
        at: u64,
        bytes: &[u8],
    ) -> Result<(), Fault>
        requires creates { (n : ℕ) → CreatesMade true call n → IsNumber n }
        requires writes { after_call call (files_of self.old) ≡ after_write number at bytes.now
            (files_of self.old) (get (files_of self.old) number) }
        requires removes { (n : ℕ) → RemovesMade true call n → ⊥ }
        requires no_read { read_in_call call ≡ [] }
        ensures written { OnOk result (files_of self.new ≡ after_write number at bytes.now
            (files_of self.old) (get (files_of self.old) number)) }
        ensures files { OnErr result (files_of self.new ≡ files_of self.old) }
        ensures width { widest_of self.new ≡ widest_of self.old }
        ensures pending { (n : ℕ) → removed_on self.new n → removed_on self.old n }
        ensures leaves { MayTake call (files_of self.old) (left_by self.old) (left_by self.new) }
        ensures time { Elapses moment_of left_since_by left_by self.old self.new }
        ensures cause { HasCause self.old.faults self.new.faults result }
        ensures plays { Plays call self.old self.new result }
    {
        let fails = self.fails();
        note(&mut self.calls, &mut self.faults, fails, call)?;
        if write_file(&mut self.files, number, at, bytes).is_err() {
            self.calls.pop();
            return Err(Fault::Memory);
        }
        Ok(())
    }

    // A call that takes a file out.
    pub(super) fn take_out(&mut self, number: u64) -> Result<(), Fault>
        ensures removed { OnOk result (files_of self.new ≡ remove (files_of self.old) number) }
        ensures files { OnErr result (self.new.files.items ≡ self.old.files.items) }
        ensures width { widest_of self.new ≡ widest_of self.old }
        ensures pending { (n : ℕ) → removed_on self.new n → removed_on self.old n ⊎ (n ≡ number) }
        ensures leaves { MayTake (Call.Remove number) (files_of self.old) (left_by self.old)
            (left_by self.new) }
        ensures time { Elapses moment_of left_since_by left_by self.old self.new }
        ensures cause { HasCause self.old.faults self.new.faults result }
        ensures plays { Plays (Call.Remove number) self.old self.new result }
    {
        let fails = self.fails();
        note(
            &mut self.calls,
            &mut self.faults,
            fails,
            Call::Remove { number },
        )?;
        remove_file(&mut self.files, number);
        Ok(())
    }

    // Whether the plan lets the next call fail.
    fn fails(&self) -> bool
        ensures { result ≡ fails_at (fault_plan_of self.now) (length (record_of self.now) + 1) }
    {
        let next = self.calls.len() as u64 + 1;
        self.plan.failing.contains(&next) || self.plan.stop_after.is_some_and(|last| last < next)
    }
}

// The number, the offset and the room of a call that reads.
fn read_in_call(call: &Call) -> Option<(u64, u64, u64)>
    ensures { MatchOption result (read_in_call call.now ≡ [])
        (λ asked. read_in_call call.now ≡ asked ∷ []) }
{
    match call {
        Call::Read { number, at, room } => Some((*number, *at, *room)),
        _ => None,
    }
}

// Adds a call to the record, and to the reads where it is one.
fn note_asked(
    calls: &mut Vec<Made>,
    reads: &mut Vec<(u64, u64, u64)>,
    faults: &mut u64,
    fails: bool,
    call: Call,
) -> Result<(), Fault>
    requires { reads.old.items ≡ reads_in calls.old.items }
    ensures noted { Notes call calls.old.items calls.new.items result }
    ensures reads { reads.new.items ≡ reads_in calls.new.items }
    ensures planned { FailsExactly fails result }
    ensures counted { faults.new ≡ faults_after result faults.old }
    ensures cause { HasCause faults.old faults.new result }
{
    let Some(asked) = read_in_call(&call) else {
        return note(calls, faults, fails, call);
    };
    reads.push(asked)?;
    let noted = note(calls, faults, fails, call);
    if noted == Err(Fault::Memory) {
        reads.pop();
    }
    noted
}

// Adds a call to the record.
fn note(calls: &mut Vec<Made>, faults: &mut u64, fails: bool, call: Call) -> Result<(), Fault>
    ensures noted { Notes call calls.old.items calls.new.items result }
    ensures planned { FailsExactly fails result }
    ensures counted { faults.new ≡ faults_after result faults.old }
    ensures cause { HasCause faults.old faults.new result }
{
    if fails {
        calls.push(Made { call, done: false })?;
        *faults = faults.saturating_add(1);
        return Err(Fault::Failed);
    }
    calls.push(Made { call, done: true })?;
    Ok(())
}
