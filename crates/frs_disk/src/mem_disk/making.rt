// How a disk in memory is made, crashed and looked at.
ghost use Rattle.std.specs.Prelude.{◌≡◌, ℕ, T, [], map, false, Some, None, IsSome, IfOk};
ghost use Rattle.std.specs.List.{AllByRecursion};
ghost use Rattle.std.specs.List.Sorted.{IsStrictlyIncreasing};
ghost use Rattle.std.specs.FinMap.{get, from_entries, is_sorted};
ghost use Rattle.std.specs.Ordering.{nat_cmp};
ghost use Rattle.frs_disk.specs.Disk.{IsNumber};
ghost use Rattle.frs_disk.specs.Frames.{IsRestarted};
ghost use Rattle.frs_disk.specs.Files.{AreDistinct, plain_files, image_of};
ghost use Rattle.frs_disk.specs.Calls.{chosen_image, IsAsSynced, reads_in};
ghost use Rattle.frs_disk.specs.Plans.{start_of, files_of, record_of, fault_plan_of, faults_of, widest_of, fails_at};

use super::{Choice, FaultPlan, MemDisk};
use crate::calls::Made;
use crate::disk::Disk;
use crate::replay::replay_all;
use crate::table::{copy_files, put_file};
use frs_types::NoMemory;
use std::alloc::Global;

impl MemDisk {
    /// A disk with these files, at which nothing is pending. The files' numbers are distinct, and each is from 1
    /// to 2^62 - 1. The moment and the count of faults are 0, nothing was read, and the record is empty.
    pub fn of(
        alloc: Global,
        files: Vec<(u64, Vec<u8>)>,
        plan: FaultPlan,
    ) -> Result<MemDisk, NoMemory>
        requires in_range { AllByRecursion IsNumber (map (λ f. f.0) files.items) }
        requires distinct { AreDistinct (map (λ f. f.0) files.items) }
        ensures reads { IfOk result (λ disk. ⟦<MemDisk as Disk>⟧.reads disk
            ≡ from_entries (plain_files files.items)) }
        ensures start { IfOk result (λ disk. start_of disk
            ≡ from_entries (plain_files files.items)) }
        ensures restarted { IfOk result (IsRestarted ⟦<MemDisk as Disk>⟧) }
        ensures moment { IfOk result (λ disk. ⟦<MemDisk as Disk>⟧.moment disk ≡ 0) }
        ensures faults { IfOk result (λ disk. ⟦<MemDisk as Disk>⟧.faults disk ≡ 0) }
        ensures widest { IfOk result (λ disk. ⟦<MemDisk as Disk>⟧.widest disk ≡ 0) }
        ensures record { IfOk result (λ disk. record_of disk ≡ []) }
        ensures plan { IfOk result (λ disk. fault_plan_of disk ≡ plan) }
    {
        let mut rest = files;
        let mut table = Vec::new(alloc);
        while let Some((number, bytes)) = rest.pop() {
            put_file(&mut table, number, bytes)?;
        }
        MemDisk::restarted(alloc, table, plan)
    }

    /// One of the disks that a crash at this moment may leave, after a restart: nothing is pending, no call is to
    /// fail, the moment and the count of faults are 0, nothing was read, and the record is empty.
    pub fn crash(&self, choice: Choice) -> Result<MemDisk, NoMemory>
        ensures image { IfOk result
            (λ disk. ⟦<MemDisk as Disk>⟧.may_leave self.now (⟦<MemDisk as Disk>⟧.reads disk)) }
        ensures keep { choice ≡ Choice.Keep
            → IfOk result (λ disk. ⟦<MemDisk as Disk>⟧.reads disk
            ≡ ⟦<MemDisk as Disk>⟧.reads self.now) }
        ensures lose { choice ≡ Choice.Lose
            → IfOk result (λ disk. ⟦<MemDisk as Disk>⟧.reads disk
            ≡ chosen_image None (start_of self.now) (start_of self.now) (record_of self.now)) }
        ensures lost { choice ≡ Choice.Lose
            → IfOk result (λ disk. (n : ℕ)
            → IsAsSynced (start_of self.now) (⟦<MemDisk as Disk>⟧.reads disk)
            (record_of self.now) n) }
        ensures fill { (byte : ℕ) → choice ≡ Choice.Fill byte
            → IfOk result (λ disk. ⟦<MemDisk as Disk>⟧.reads disk
            ≡ chosen_image (Some byte) (start_of self.now) (start_of self.now)
            (record_of self.now)) }
        ensures restarted { IfOk result (IsRestarted ⟦<MemDisk as Disk>⟧) }
        ensures moment { IfOk result (λ disk. ⟦<MemDisk as Disk>⟧.moment disk ≡ 0) }
        ensures faults { IfOk result (λ disk. ⟦<MemDisk as Disk>⟧.faults disk ≡ 0) }
        ensures widest { IfOk result (λ disk. ⟦<MemDisk as Disk>⟧.widest disk ≡ 0) }
        ensures record { IfOk result (λ disk. record_of disk ≡ []) }
        ensures plan { IfOk result (λ disk. (n : ℕ) → fails_at (fault_plan_of disk) n ≡ false) }
    {
        let files = match choice {
            Choice::Keep => copy_files(self.alloc, &self.files)?,
            Choice::Lose => replay_all(self.alloc, None, &self.start, &self.calls)?,
            Choice::Fill(byte) => replay_all(self.alloc, Some(byte), &self.start, &self.calls)?,
        };
        let plan = FaultPlan {
            failing: Vec::new(self.alloc),
            stop_after: None,
        };
        MemDisk::restarted(self.alloc, files, plan)
    }

    /// What it reads: each file's number and bytes, in rising order of the numbers.
    pub fn files(&self) -> &[(u64, Vec<u8>)]
        ensures all { image_of result.now ≡ ⟦<MemDisk as Disk>⟧.reads self.now }
        ensures rising { T (is_sorted nat_cmp (plain_files result.now)) }
    {
        &self.files
    }

    /// All calls so far, in the order in which they were made.
    pub fn record(&self) -> &[Made]
        ensures { result.now ≡ record_of self.now }
    {
        &self.calls
    }

    /// All reads so far, in the order in which they were asked for: the number of the file, the offset of the first
    /// byte and the most bytes that were wanted. A read that the plan let fail is among them.
    pub fn reads(&self) -> &[(u64, u64, u64)]
        ensures { result.now ≡ reads_in (record_of self.now) }
    {
        &self.reads
    }

    // A disk of these files, as after a restart.
    fn restarted(
        alloc: Global,
        files: Vec<(u64, Vec<u8>)>,
        plan: FaultPlan,
    ) -> Result<MemDisk, NoMemory>
        requires rising { T (is_sorted nat_cmp (plain_files files.items)) }
        requires in_range { (n : ℕ) → IsSome (get (image_of files.items) n) → IsNumber n }
        ensures reads { IfOk result (λ disk. files_of disk ≡ image_of files.items) }
        ensures start { IfOk result (λ disk. start_of disk ≡ image_of files.items) }
        ensures record { IfOk result (λ disk. record_of disk ≡ []) }
        ensures plan { IfOk result (λ disk. fault_plan_of disk ≡ plan) }
        ensures faults { IfOk result (λ disk. faults_of disk ≡ 0) }
        ensures widest { IfOk result (λ disk. widest_of disk ≡ 0) }
    {
        let start = copy_files(alloc, &files)?;
        Ok(MemDisk {
            alloc,
            start,
            files,
            calls: Vec::new(alloc),
            reads: Vec::new(alloc),
            plan,
            faults: 0,
            widest: 0,
        })
    }
}
