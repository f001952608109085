// Each form in memory on its happy path, and what a crash makes of a file that was changed after its sync.
ghost use Rattle.std.specs.Prelude.{◌≡◌, None, IfOk, IsTrue};
ghost use Rattle.std.specs.FinMap.{get};

use super::*;
use frs_types::NoMemory;
use std::alloc::Global;
use std::test::Fail;

fn empty_disk(alloc: Global) -> Result<MemDisk, NoMemory>
    ensures { IfOk result (λ disk. (get (⟦<MemDisk as Disk>⟧.reads disk) 1 ≡ None)
        × (⟦<MemDisk as Disk>⟧.removing disk 1 → ⊥)) }
{
    let plan = FaultPlan {
        failing: Vec::new(alloc),
        stop_after: None,
    };
    MemDisk::of(alloc, Vec::new(alloc), plan)
}

// A file with the bytes 1 and 2, over which 9 and 9 are written from the second on, with no sync after it.
fn change_a_file<D: Disk>(disk: &mut D) -> Result<(), Fault>
    requires absent { IsTrue (D.tells disk.old) → get (D.reads disk.old) 1 ≡ None }
    requires not_removed { IsTrue (D.tells disk.old) → D.removing disk.old 1 → ⊥ }
{
    disk.create(1)?;
    disk.write(1, 0, &[1, 2])?;
    disk.sync(1)?;
    disk.write(1, 1, &[9, 9])
}

#[test]
fn a_crash_leaves_what_was_chosen(rt: HostRuntime) -> Result<(), Fail> {
    let alloc = rt.alloc();
    let mut disk = empty_disk(alloc)?;
    change_a_file(&mut disk)?;
    assert_eq!(rt; disk.record().len(), 4);
    let cases = [
        (Choice::Keep, [1u8, 9, 9]),
        (Choice::Fill(0), [1, 0, 0]),
        (Choice::Fill(7), [1, 7, 7]),
        (Choice::Fill(255), [1, 255, 255]),
    ];
    for (choice, bytes) in cases {
        let left = disk.crash(choice)?;
        assert!(rt; has_one_file(left.files(), &bytes));
    }
    let lost = disk.crash(Choice::Lose)?;
    assert!(rt; has_one_file(lost.files(), &[1, 2]));
    Ok(())
}

fn has_one_file(files: &[(u64, Vec<u8>)], bytes: &[u8]) -> bool {
    match files {
        [file] => file.0 == 1 && file.1.as_slice() == bytes,
        _ => false,
    }
}

fn read_one<F: Files>(files: &mut F, alloc: Global, name: &str) -> Result<Vec<u8>, Fault> {
    let name = Name::new(alloc, name)?;
    files.read(alloc, &name)
}

fn put_two<S: Shelf>(shelf: &mut S) -> Result<u64, Fault> {
    shelf.put(2, 1, b"b")?;
    shelf.put(1, 1, b"a")?;
    shelf.greatest()
}

fn write_two<S: Sink>(sink: &mut S) -> Result<(), Fault> {
    sink.write(b"ab")?;
    sink.write(b"c")
}

#[test]
fn the_rest_of_the_outside_holds_what_it_is_given(rt: HostRuntime) -> Result<(), Fail> {
    let alloc = rt.alloc();
    let mut named = Vec::new(alloc);
    named.push((Name::new(alloc, "a")?, Vec::new(alloc)))?;
    let mut files = MemFiles::of(alloc, named, Vec::new(alloc))?;
    assert_eq!(rt; read_one(&mut files, alloc, "a")?.len(), 0);
    assert!(rt; read_one(&mut files, alloc, "b").is_err());

    let mut shelf = MemShelf::of(alloc, Vec::new(alloc))?;
    assert_eq!(rt; put_two(&mut shelf)?, 2);
    assert_eq!(rt; shelf.held().len(), 2);

    let mut sink = MemSink::of(alloc, Vec::new(alloc))?;
    write_two(&mut sink)?;
    assert_eq!(rt; sink.bytes(), b"abc".as_slice());
    Ok(())
}
