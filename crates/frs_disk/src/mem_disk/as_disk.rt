// A disk in memory as a disk.
ghost use Rattle.std.specs.Prelude.{◌≡◌, ◌⊎◌, ◌≤◌, ℕ, [], true, Some, None, length, take, drop, IsSome, IfOk, OnOk, All, max};
ghost use Rattle.std.proofs.Common.{sym, ◌∙◌, subst, ap};
ghost use Rattle.std.specs.FinMap.{get, keys, same_entries_map};
ghost use Rattle.std.specs.List.Sorted.{IsStrictlyIncreasing};
ghost use Rattle.frs_disk.specs.Disk.{Image, bytes_at, bytes_after_write, IsNumber, ChangesFile, OnFile, Torn, Created, Removed, Follows, Keeps, Elapses, HasCause};
ghost use Rattle.frs_disk.specs.Calls.{image_after_calls, MayLeave};
ghost use Rattle.frs_disk.specs.RecordLaws.{held_numbered};
ghost use Rattle.frs_disk.specs.RecordLaws.{now_counts, now_only, earlier_since, read_leaves, absent_stays};
ghost use Rattle.frs_disk.specs.Plans.{start_of, files_of, record_of, faults_of, widest_of, left_by, left_since_by, moment_of, removed_on, Plays};

use super::MemDisk;
use crate::calls::Call;
use crate::disk::{Disk, Fault};
use crate::table::{file_of, numbers_of};
use frs_types::Sequence;
use std::alloc::Global;

impl Disk for MemDisk {
    ghost tells = { λ _. true };

    ghost reads = { files_of };

    ghost may_leave = { left_by };

    ghost moment = { moment_of };

    ghost left_since = { left_since_by };

    ghost removing = { removed_on };

    ghost faults = { faults_of };

    ghost widest = { widest_of };

    ghost counts_now = { λ m t c le leaves. now_counts (start_of m) (record_of m) t c le leaves };

    ghost only_now = { λ m c left. now_only (start_of m) (record_of m) c left };

    ghost since_earlier = { λ m s t c le left. earlier_since (start_of m) (record_of m) s t c le left };

    ghost as_read = { λ m told. subst (λ (c : Image). MayLeave (start_of m) (record_of m) c) (sym (same_entries_map (files_of m) (image_after_calls (start_of m) (record_of m)) m.tied)) (read_leaves (start_of m) (record_of m)) };

    ghost stays_absent = { λ m n c told none kept leaves. absent_stays (start_of m) c (record_of m) n kept (ap (λ (i : Image). get i n) (sym (same_entries_map (files_of m) (image_after_calls (start_of m) (record_of m)) m.tied)) ∙ none) leaves };

    ghost numbered = { λ m n told some. held_numbered (start_of m) (files_of m) (record_of m) m.tied m.in_range n some };

    fn count(&self) -> u64 {
        self.faults
    }

    fn segments(&mut self, alloc: Global) -> Result<Vec<u64>, Fault>
        ensures numbers { IfOk result (λ numbers. numbers.items ≡ keys (files_of self.old)) }
        ensures rising { IfOk result (λ numbers. IsStrictlyIncreasing numbers.items) }
        ensures in_range { IfOk result (λ numbers. All IsNumber numbers.items) }
        ensures seen { files_of self.new ≡ files_of self.old }
        ensures pending { (n : ℕ) → removed_on self.new n → removed_on self.old n }
        ensures crash { Keeps (left_by self.old) (left_by self.new) }
        ensures time { Elapses moment_of left_since_by left_by self.old self.new }
        ensures width { widest_of self.new ≡ widest_of self.old }
        ensures cause { HasCause (faults_of self.old) (faults_of self.new) result }
        ensures plays { Plays Call.Segments self.old self.new result }
    {
        let numbers = numbers_of(alloc, &self.files)?;
        self.ask(Call::Segments)?;
        Ok(numbers)
    }

    fn create(&mut self, number: u64) -> Result<(), Fault>
        requires in_range { IsNumber number }
        requires absent { get (files_of self.old) number ≡ None }
        requires not_removed { removed_on self.old number → ⊥ }
        ensures created { OnOk result (get (files_of self.new) number ≡ Some []) }
        ensures seen { ChangesFile number Created (files_of self.old) (files_of self.new) }
        ensures pending { (n : ℕ) → removed_on self.new n → removed_on self.old n }
        ensures crash { Follows (ChangesFile number Created) (left_by self.old) (left_by self.new) }
        ensures time { Elapses moment_of left_since_by left_by self.old self.new }
        ensures width { widest_of self.new ≡ widest_of self.old }
        ensures cause { HasCause (faults_of self.old) (faults_of self.new) result }
        ensures plays { Plays (Call.Create number) self.old self.new result }
    {
        let empty = Vec::new(self.alloc);
        self.change(Call::Create { number }, number, empty)
    }

    fn length(&mut self, number: u64) -> Result<u64, Fault>
        requires there { IsSome (get (files_of self.old) number) }
        ensures length { IfOk result (λ n. n ≡ length (bytes_at (files_of self.old) number)) }
        ensures seen { files_of self.new ≡ files_of self.old }
        ensures pending { (n : ℕ) → removed_on self.new n → removed_on self.old n }
        ensures crash { Keeps (left_by self.old) (left_by self.new) }
        ensures time { Elapses moment_of left_since_by left_by self.old self.new }
        ensures width { widest_of self.new ≡ widest_of self.old }
        ensures cause { HasCause (faults_of self.old) (faults_of self.new) result }
        ensures plays { Plays (Call.Length number) self.old self.new result }
    {
        self.ask(Call::Length { number })?;
        Ok(file_of(&self.files, number).len() as u64)
    }

    fn read(&mut self, alloc: Global, number: u64, at: u64, room: u64) -> Result<Vec<u8>, Fault>
        requires there { IsSome (get (files_of self.old) number) }
        ensures bytes { IfOk result (λ bytes. bytes.items
            ≡ take room (drop at (bytes_at (files_of self.old) number))) }
        ensures no_more { IfOk result (λ bytes. length bytes.items ≤ room) }
        ensures seen { files_of self.new ≡ files_of self.old }
        ensures pending { (n : ℕ) → removed_on self.new n → removed_on self.old n }
        ensures crash { Keeps (left_by self.old) (left_by self.new) }
        ensures time { Elapses moment_of left_since_by left_by self.old self.new }
        ensures width { widest_of self.new ≡ max (widest_of self.old) room }
        ensures cause { HasCause (faults_of self.old) (faults_of self.new) result }
        ensures plays { Plays (Call.Read number at room) self.old self.new result }
    {
        self.widest = self.widest.max(room);
        let bytes = part(file_of(&self.files, number), at, room).to_vec(alloc)?;
        self.ask(Call::Read { number, at, room })?;
        Ok(bytes)
    }

    fn write(&mut self, number: u64, at: u64, bytes: &[u8]) -> Result<(), Fault>
        requires there { IsSome (get (files_of self.old) number) }
        requires within { at ≤ length (bytes_at (files_of self.old) number) }
        ensures written { OnOk result (get (files_of self.new) number
            ≡ Some (bytes_after_write at bytes.now (bytes_at (files_of self.old) number))) }
        ensures seen { ChangesFile number (OnFile (Torn at (length bytes.now))) (files_of self.old)
            (files_of self.new) }
        ensures pending { (n : ℕ) → removed_on self.new n → removed_on self.old n }
        ensures crash { Follows (ChangesFile number (OnFile (Torn at (length bytes.now))))
            (left_by self.old) (left_by self.new) }
        ensures time { Elapses moment_of left_since_by left_by self.old self.new }
        ensures width { widest_of self.new ≡ widest_of self.old }
        ensures cause { HasCause (faults_of self.old) (faults_of self.new) result }
        ensures plays { Plays (Call.Write number at bytes.now) self.old self.new result }
    {
        let call = Call::Write {
            number,
            at,
            bytes: Sequence::of(bytes.to_vec(self.alloc)?),
        };
        self.write_over(call, number, at, bytes)
    }

    fn sync(&mut self, number: u64) -> Result<(), Fault>
        requires there { IsSome (get (files_of self.old) number) }
        ensures durable { OnOk result ((c : Image) → left_by self.new c
            → get c number ≡ get (files_of self.new) number) }
        ensures seen { files_of self.new ≡ files_of self.old }
        ensures pending { (n : ℕ) → removed_on self.new n → removed_on self.old n }
        ensures crash { Keeps (left_by self.old) (left_by self.new) }
        ensures time { Elapses moment_of left_since_by left_by self.old self.new }
        ensures width { widest_of self.new ≡ widest_of self.old }
        ensures cause { HasCause (faults_of self.old) (faults_of self.new) result }
        ensures plays { Plays (Call.Sync number) self.old self.new result }
    {
        self.ask(Call::Sync { number })
    }

    fn remove(&mut self, number: u64) -> Result<(), Fault>
        requires there { IsSome (get (files_of self.old) number) }
        ensures removed { OnOk result (get (files_of self.new) number ≡ None) }
        ensures seen { ChangesFile number Removed (files_of self.old) (files_of self.new) }
        ensures pending { (n : ℕ) → removed_on self.new n → removed_on self.old n ⊎ (n ≡ number) }
        ensures crash { Follows (ChangesFile number Removed) (left_by self.old) (left_by self.new) }
        ensures time { Elapses moment_of left_since_by left_by self.old self.new }
        ensures width { widest_of self.new ≡ widest_of self.old }
        ensures cause { HasCause (faults_of self.old) (faults_of self.new) result }
        ensures plays { Plays (Call.Remove number) self.old self.new result }
    {
        self.take_out(number)
    }
}

// The bytes from an offset on, as many as there are and no more than there is room for.
fn part(bytes: &[u8], at: u64, room: u64) -> &[u8]
    ensures { result.now ≡ take room (drop at bytes.now) }
{
    if at >= bytes.len() as u64 {
        return &[];
    }
    let rest = &bytes[at as usize..];
    if room >= rest.len() as u64 {
        return rest;
    }
    &rest[..room as usize]
}
