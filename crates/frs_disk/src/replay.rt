// What a crash makes of the calls that a disk in memory has recorded, by a choice.
ghost use Rattle.std.specs.Prelude.{◌≡◌, T, IfOk, OnOk};
ghost use Rattle.std.specs.FinMap.{is_sorted};
ghost use Rattle.std.specs.Ordering.{nat_cmp};
ghost use Rattle.frs_disk.specs.Files.{plain_files, image_of};
ghost use Rattle.frs_disk.specs.Calls.{after_call, chosen_image, chosen_call};

use crate::calls::{Call, Made};
use crate::table::{copy_files, place_file, put_file, remove_file, write_file};
use std::alloc::{AllocError, Global};

/// What a choice makes of a record of calls: the files that a crash leaves.
pub fn replay_all(
    alloc: Global,
    fill: Option<u8>,
    start: &[(u64, Vec<u8>)],
    calls: &[Made],
) -> Result<Vec<(u64, Vec<u8>)>, AllocError>
    requires { T (is_sorted nat_cmp (plain_files start.now)) }
    ensures rising { IfOk result (λ files. T (is_sorted nat_cmp (plain_files files.items))) }
    ensures image { IfOk result (λ files. image_of files.items
        ≡ chosen_image fill (image_of start.now) (image_of start.now) calls.now) }
{
    let mut reads = copy_files(alloc, start)?;
    let mut image = copy_files(alloc, start)?;
    let mut rest = calls;
    while let [made, after @ ..] = rest {
        if made.done {
            replay(alloc, fill, &made.call, &mut reads, &mut image)?;
        }
        rest = after;
    }
    Ok(image)
}

// One call more: what is read after it, and what the choice makes of it.
fn replay(
    alloc: Global,
    fill: Option<u8>,
    call: &Call,
    reads: &mut Vec<(u64, Vec<u8>)>,
    image: &mut Vec<(u64, Vec<u8>)>,
) -> Result<(), AllocError>
    requires reads_rising { T (is_sorted nat_cmp (plain_files reads.old.items)) }
    requires image_rising { T (is_sorted nat_cmp (plain_files image.old.items)) }
    ensures reads_still { T (is_sorted nat_cmp (plain_files reads.new.items)) }
    ensures image_still { T (is_sorted nat_cmp (plain_files image.new.items)) }
    ensures reads { OnOk result (image_of reads.new.items
        ≡ after_call call.now (image_of reads.old.items)) }
    ensures image { OnOk result (image_of image.new.items
        ≡ chosen_call fill call.now (image_of reads.old.items) (image_of image.old.items)) }
{
    match call {
        Call::Create { number } => {
            put_file(reads, *number, Vec::new(alloc))?;
            if fill.is_some() {
                put_file(image, *number, Vec::new(alloc))?;
            }
            Ok(())
        }
        Call::Write { number, at, bytes } => {
            write_file(reads, *number, *at, bytes.items())?;
            if let Some(byte) = fill {
                let filled = vec![in alloc; byte; bytes.items().len()]?;
                write_file(image, *number, *at, &filled)?;
            }
            Ok(())
        }
        Call::Sync { number } => place_file(alloc, image, *number, reads),
        Call::Remove { number } => {
            remove_file(reads, *number);
            Ok(())
        }
        Call::Segments | Call::Length { .. } | Call::Read { .. } => Ok(()),
    }
}
