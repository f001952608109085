//! The real forms, once each on a real folder.
use crate::files::FolderFiles;
use crate::folder::FolderDisk;
use crate::out_sink::OutSink;
use frs_disk::{Disk, Fault, Files, Name, Sink};
use std::alloc::Global;
use std::fs::File;
use std::test::Fail;
use std::{env, fs, io, process};

// A new folder of its own for a test.
fn new_folder(rt: &HostRuntime, name: &str) -> io::Result<String> {
    let process = process::id(rt.process());
    let parent = env::temp_dir(rt)?;
    let parent = parent.as_path().to_str().unwrap_or(".");
    let path = format!(in rt.alloc(); "{parent}/frs-{name}-{process}")?;
    fs::create_dir(rt, path.as_str())?;
    Ok(path)
}

// Makes file 3, whose bytes are then `abxyz`.
fn make_file(disk: &mut FolderDisk) -> Result<(), Fault> {
    disk.create(3)?;
    disk.write(3, 0, b"abcd")?;
    disk.sync(3)?;
    disk.write(3, 2, b"xyz")
}

// Whether file 3 has these bytes behind its first, and is the only one.
fn has_file(alloc: Global, disk: &mut FolderDisk) -> Result<bool, Fault> {
    let length = disk.length(3)?;
    let bytes = disk.read(alloc, 3, 1, 9)?;
    let numbers = disk.segments(alloc)?;
    Ok(
        length == 5
            && bytes.as_slice() == b"bxyz".as_slice()
            && numbers.as_slice() == [3].as_slice(),
    )
}

// Whether file 3 isn't made twice, and is gone once it is removed.
fn refuses(disk: &mut FolderDisk) -> Result<bool, Fault> {
    let twice = disk.create(3);
    disk.remove(3)?;
    let gone = disk.length(3);
    Ok(twice == Err(Fault::Failed) && gone == Err(Fault::Failed))
}

// Uses each call of a disk once, and two that have to fail.
fn is_a_disk(alloc: Global, disk: &mut FolderDisk) -> Result<bool, Fault> {
    let none = disk.segments(alloc)?.is_empty();
    make_file(disk)?;
    let made = has_file(alloc, disk)?;
    let refused = refuses(disk)?;
    Ok(none && made && refused && disk.count() == 2)
}

// A file in a folder that is no segment.
fn write_other(rt: &HostRuntime, path: &str) -> Result<(), Fail> {
    let other = format!(in rt.alloc(); "{path}/seg-1")?;
    fs::write(rt, other.as_str(), "no segment")?;
    Ok(())
}

#[test]
fn a_folder_is_a_disk(rt: HostRuntime) -> Result<(), Fail> {
    let path = new_folder(&rt, "disk")?;
    write_other(&rt, path.as_str())?;
    let mut disk = FolderDisk::of(rt, path.as_str())?;
    let holds = is_a_disk(rt.alloc(), &mut disk)?;
    fs::remove_dir_all(&rt, path.as_str())?;
    assert!(rt; holds);
    Ok(())
}

// Writes a text to a file in two pieces.
fn write_text(rt: &HostRuntime, file: &str) -> Result<(), Fail> {
    let mut sink = OutSink::of(File::create(rt, file)?);
    sink.write(b"put m k v\n")?;
    sink.write(b"get m k\n")?;
    Ok(())
}

// What is read of the file with this name.
fn read_file(rt: HostRuntime, name: &str) -> Result<Vec<u8>, Fail> {
    let name = Name::new(rt.alloc(), name)?;
    let mut files = FolderFiles::of(rt);
    Ok(files.read(rt.alloc(), &name)?)
}

// Whether a file without a name can't be read.
fn is_unread(rt: HostRuntime) -> Result<bool, Fail> {
    let name = Name::new(rt.alloc(), "")?;
    let mut files = FolderFiles::of(rt);
    Ok(matches!(files.read(rt.alloc(), &name), Err(Fault::Failed)))
}

#[test]
fn a_file_is_read_and_a_text_is_written(rt: HostRuntime) -> Result<(), Fail> {
    let path = new_folder(&rt, "text")?;
    let file = format!(in rt.alloc(); "{path}/script")?;
    write_text(&rt, file.as_str())?;
    let bytes = read_file(rt, file.as_str())?;
    fs::remove_dir_all(&rt, path.as_str())?;
    assert_eq!(rt; bytes.as_slice(), b"put m k v\nget m k\n".as_slice());
    assert!(rt; is_unread(rt)?);
    Ok(())
}
