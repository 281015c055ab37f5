//! Shelves, and what a file system holds after saves and reads of which calls fail.

use crate::counted::{Counted, Plan};
use outside::{CalmShelf, FileShelf, MemShelf, Shelf, Shelved, Stored};
use plain_text::{List, NoMemory, Text};
use std::alloc::{AllocError, Global};
use std::fs;
use std::io::ErrorKind;
use std::os::unix::fs::{MetadataExt, PermissionsExt, symlink};

const OLD: &[u8] = b"old text";

const NEW: &[u8] = b"the new text";

/// An answer that gives these bytes.
fn held(alloc: Global, bytes: &[u8]) -> Result<Shelved, AllocError> {
    let bytes = Vec::from_slice(alloc, bytes)?;
    Ok(Shelved::Held(List::from_vec(bytes)))
}

/// Whether a folder of a test's own is made, without files.
fn is_made(rt: &HostRuntime, folder: &str) -> bool {
    match fs::remove_dir_all(rt, folder) {
        Err(error) if error.kind() != ErrorKind::NotFound => false,
        _ => fs::create_dir(rt, folder).is_ok(),
    }
}

/// Whether a folder of a test's own is made, with this file of the old bytes and this mode alone.
fn is_made_with(rt: &HostRuntime, folder: &str, file: &str, mode: u32) -> bool {
    is_made(rt, folder)
        && fs::write(rt, file, OLD).is_ok()
        && fs::set_permissions(rt, file, fs::Permissions::from_mode(mode)).is_ok()
}

fn is_removed(rt: &HostRuntime, folder: &str) -> bool {
    fs::remove_dir_all(rt, folder).is_ok()
}

/// Whether a save to the file answers this, and a fault was counted exactly where it failed.
fn saves(rt: &HostRuntime, plan: &Plan, file: &str, bytes: &[u8], answer: Stored) -> bool {
    let mut shelf = FileShelf::new(Counted::new(rt, plan));
    match Text::from_str(rt.alloc(), file) {
        Ok(path) => {
            let found = shelf.write(rt.alloc(), &path, bytes);
            found == answer && shelf.faults == u64::from(answer == Stored::Failed)
        }
        Err(_) => false,
    }
}

/// Whether a read of the file answers this, and a fault was counted exactly where it failed.
fn reads(rt: &HostRuntime, plan: &Plan, file: &str, answer: &Shelved) -> bool {
    let mut shelf = FileShelf::new(Counted::new(rt, plan));
    match Text::from_str(rt.alloc(), file) {
        Ok(path) => {
            let found = shelf.read(rt.alloc(), &path);
            found == *answer && shelf.faults == u64::from(*answer == Shelved::Failed)
        }
        Err(_) => false,
    }
}

/// Whether a read of the file gives these bytes.
fn gives(rt: &HostRuntime, plan: &Plan, file: &str, bytes: &[u8]) -> bool {
    match held(rt.alloc(), bytes) {
        Ok(answer) => reads(rt, plan, file, &answer),
        Err(_) => false,
    }
}

/// Whether the file has these bytes.
fn holds(rt: &HostRuntime, file: &str, bytes: &[u8]) -> bool {
    match fs::read(rt, file) {
        Ok(now) => now.as_slice() == bytes,
        Err(_) => false,
    }
}

/// The permissions of the file.
fn mode_of(rt: &HostRuntime, file: &str) -> Option<u32> {
    match fs::metadata(rt, file) {
        Ok(found) => Some(found.mode() & 0o7777),
        Err(_) => None,
    }
}

/// Whether so many files stand in the folder.
fn has_files(rt: &HostRuntime, folder: &str, count: usize) -> bool {
    match fs::read_dir(rt, folder) {
        Ok(found) => found.count() == count,
        Err(_) => false,
    }
}

/// Whether the save of which this call fails comes to this, and leaves one file, with these bytes.
fn over_old(rt: &HostRuntime, call: u64, answer: Stored, bytes: &[u8]) -> bool {
    let (folder, file) = ("shelf_over_old", "shelf_over_old/a");
    let plan = Plan::failing(call, 1, ErrorKind::StorageFull);
    is_made_with(rt, folder, file, 0o640)
        && saves(rt, &plan, file, NEW, answer)
        && holds(rt, file, bytes)
        && mode_of(rt, file) == Some(0o640)
        && has_files(rt, folder, 1)
}

#[test]
fn each_call_of_a_save_fails_in_turn_over_an_old_file(rt: HostRuntime) {
    // What is there?
    assert!(rt; over_old(&rt, 1, Stored::Failed, OLD));
    // May it be written?
    assert!(rt; over_old(&rt, 2, Stored::Failed, OLD));
    // The folder, the new file, its bytes.
    assert!(rt; over_old(&rt, 3, Stored::Failed, OLD));
    assert!(rt; over_old(&rt, 4, Stored::Failed, OLD));
    assert!(rt; over_old(&rt, 5, Stored::Failed, OLD));
    // Its owner, which need not be kept; its permissions, its sync.
    assert!(rt; over_old(&rt, 6, Stored::Done, NEW));
    assert!(rt; over_old(&rt, 7, Stored::Failed, OLD));
    assert!(rt; over_old(&rt, 8, Stored::Failed, OLD));
    // The renaming, and the sync of the folder.
    assert!(rt; over_old(&rt, 9, Stored::Failed, OLD));
    assert!(rt; over_old(&rt, 10, Stored::Failed, NEW));
    // There is no such call.
    assert!(rt; over_old(&rt, 11, Stored::Done, NEW));
    assert!(rt; is_removed(&rt, "shelf_over_old"));
}

/// Whether the save of which this call fails comes to this where no file was, and leaves so many.
fn of_new(rt: &HostRuntime, call: u64, answer: Stored, files: usize) -> bool {
    let plan = Plan::failing(call, 1, ErrorKind::StorageFull);
    is_made(rt, "shelf_of_new")
        && saves(rt, &plan, "shelf_of_new/a", NEW, answer)
        && has_files(rt, "shelf_of_new", files)
}

/// Whether the new file has its bytes, and the permissions that the system gives every new file.
fn is_ordinary(rt: &HostRuntime) -> bool {
    holds(rt, "shelf_of_new/a", NEW)
        && fs::write(rt, "shelf_of_new/b", NEW).is_ok()
        && mode_of(rt, "shelf_of_new/a").is_some()
        && mode_of(rt, "shelf_of_new/a") == mode_of(rt, "shelf_of_new/b")
}

#[test]
fn each_call_of_a_save_fails_in_turn_where_no_file_was(rt: HostRuntime) {
    assert!(rt; of_new(&rt, 1, Stored::Failed, 0));
    assert!(rt; of_new(&rt, 2, Stored::Failed, 0));
    assert!(rt; of_new(&rt, 3, Stored::Failed, 0));
    assert!(rt; of_new(&rt, 4, Stored::Failed, 0));
    assert!(rt; of_new(&rt, 5, Stored::Failed, 0));
    assert!(rt; of_new(&rt, 6, Stored::Failed, 0));
    // The sync of the folder.
    assert!(rt; of_new(&rt, 7, Stored::Failed, 1));
    assert!(rt; is_ordinary(&rt));
    assert!(rt; of_new(&rt, 8, Stored::Done, 1));
    assert!(rt; is_ordinary(&rt));
    assert!(rt; is_removed(&rt, "shelf_of_new"));
}

/// Whether the save of which these calls fail is refused, and leaves the old bytes and so many files.
fn leaves(rt: &HostRuntime, call: u64, failing: u64, files: usize) -> bool {
    let (folder, file) = ("shelf_removal", "shelf_removal/a");
    let plan = Plan::failing(call, failing, ErrorKind::StorageFull);
    is_made_with(rt, folder, file, 0o600)
        && saves(rt, &plan, file, NEW, Stored::Failed)
        && holds(rt, file, OLD)
        && has_files(rt, folder, files)
}

/// Whether a save passes over a name that is taken.
fn passes_a_name(rt: &HostRuntime) -> bool {
    saves(rt, &Plan::calm(7), "shelf_removal/a", NEW, Stored::Done)
        && holds(rt, "shelf_removal/a", NEW)
        && has_files(rt, "shelf_removal", 2)
}

#[test]
fn a_new_file_stays_only_where_its_removal_fails(rt: HostRuntime) {
    assert!(rt; leaves(&rt, 5, 1, 1));
    assert!(rt; leaves(&rt, 5, 2, 2));
    assert!(rt; leaves(&rt, 8, 2, 2));
    assert!(rt; leaves(&rt, 9, 2, 2));
    assert!(rt; passes_a_name(&rt));
    assert!(rt; is_removed(&rt, "shelf_removal"));
}

/// Whether the read of which this call fails is a fault.
fn is_unread(rt: &HostRuntime, call: u64) -> bool {
    let plan = Plan::failing(call, 1, ErrorKind::Other);
    reads(rt, &plan, "shelf_reading/a", &Shelved::Failed)
}

/// Whether the read of which this call fails, if there is one, gives the old bytes.
fn is_read(rt: &HostRuntime, call: u64) -> bool {
    let plan = Plan::failing(call, 1, ErrorKind::Other);
    gives(rt, &plan, "shelf_reading/a", OLD)
}

#[test]
fn each_call_of_a_read_fails_in_turn(rt: HostRuntime) {
    assert!(rt; is_made_with(&rt, "shelf_reading", "shelf_reading/a", 0o600));
    assert!(rt; is_unread(&rt, 1));
    assert!(rt; is_unread(&rt, 2));
    assert!(rt; is_unread(&rt, 3));
    assert!(rt; is_unread(&rt, 4));
    assert!(rt; is_read(&rt, 5));
    assert!(rt; is_removed(&rt, "shelf_reading"));
}

/// Three calls that are interrupted.
fn interruption(first: u64) -> Plan {
    Plan::failing(first, 3, ErrorKind::Interrupted)
}

/// Whether a save, and then a read, goes on after three interrupted calls.
fn goes_on(rt: &HostRuntime) -> bool {
    is_made(rt, "shelf_interrupted")
        && saves(
            rt,
            &interruption(4),
            "shelf_interrupted/a",
            NEW,
            Stored::Done,
        )
        && gives(rt, &interruption(3), "shelf_interrupted/a", NEW)
}

#[test]
fn an_interruption_is_no_fault(rt: HostRuntime) {
    assert!(rt; goes_on(&rt));
    assert!(rt; is_removed(&rt, "shelf_interrupted"));
}

/// Whether these bytes come back where one call moves so many at most, and stand in one file.
fn comes_back(rt: &HostRuntime, bytes: &[u8], piece: usize) -> bool {
    let plan = Plan::calm(piece);
    saves(rt, &plan, "shelf_lengths/a", bytes, Stored::Done)
        && gives(rt, &plan, "shelf_lengths/a", bytes)
        && has_files(rt, "shelf_lengths", 1)
}

/// A text of one byte more than a mebibyte.
fn long_text(alloc: Global) -> Result<Vec<u8>, AllocError> {
    let mut long = Vec::new(alloc);
    long.resize(1 << 20, b'x')?;
    long.push(b'y')?;
    Ok(long)
}

fn long_comes_back(rt: &HostRuntime) -> bool {
    match long_text(rt.alloc()) {
        Ok(long) => comes_back(rt, long.as_slice(), usize::MAX),
        Err(_) => false,
    }
}

#[test]
fn texts_of_any_length_come_back(rt: HostRuntime) {
    assert!(rt; is_made(&rt, "shelf_lengths"));
    assert!(rt; comes_back(&rt, b"", 7));
    assert!(rt; comes_back(&rt, NEW, 7));
    assert!(rt; long_comes_back(&rt));
    assert!(rt; comes_back(&rt, NEW, usize::MAX));
    assert!(rt; is_removed(&rt, "shelf_lengths"));
}

/// Whether the link is made, and leads to this path.
fn is_linked(rt: &HostRuntime, path: &str, link: &str) -> bool {
    symlink(rt, path, link).is_ok()
}

/// Whether a link is made that leads to the file by its whole path.
fn is_linked_wholly(rt: &HostRuntime) -> bool {
    match fs::canonicalize(rt, "shelf_links/a") {
        Ok(absolute) => is_linked(rt, absolute.as_str(), "shelf_links/absolute"),
        Err(_) => false,
    }
}

/// Whether a folder is made that has a file and five links.
fn has_links(rt: &HostRuntime) -> bool {
    is_made_with(rt, "shelf_links", "shelf_links/a", 0o600)
        && is_linked(rt, "a", "shelf_links/link")
        && is_linked(rt, "../shelf_links/link", "shelf_links/second")
        && is_linked_wholly(rt)
        && is_linked(rt, "nowhere", "shelf_links/dangling")
        && is_linked(rt, "round", "shelf_links/round")
}

fn is_link(rt: &HostRuntime, path: &str) -> bool {
    match fs::symlink_metadata(rt, path) {
        Ok(found) => found.is_symlink(),
        Err(_) => false,
    }
}

/// Whether a save through the link goes to this file, so many files are there then, and the link still is one.
fn goes_to(rt: &HostRuntime, link: &str, file: &str, files: usize) -> bool {
    has_links(rt)
        && saves(rt, &Plan::calm(7), link, NEW, Stored::Done)
        && holds(rt, file, NEW)
        && is_link(rt, link)
        && has_files(rt, "shelf_links", files)
}

/// Whether a save to a link that leads to itself fails, and leaves all as it was.
fn round_is_left(rt: &HostRuntime) -> bool {
    let link = "shelf_links/round";
    has_links(rt)
        && saves(rt, &Plan::calm(7), link, NEW, Stored::Failed)
        && holds(rt, "shelf_links/a", OLD)
        && is_link(rt, link)
        && has_files(rt, "shelf_links", 6)
}

#[test]
fn a_save_goes_through_links(rt: HostRuntime) {
    assert!(rt; goes_to(&rt, "shelf_links/link", "shelf_links/a", 6));
    assert!(rt; goes_to(&rt, "shelf_links/second", "shelf_links/a", 6));
    assert!(rt; goes_to(&rt, "shelf_links/absolute", "shelf_links/a", 6));
    assert!(rt; goes_to(&rt, "shelf_links/dangling", "shelf_links/nowhere", 7));
    assert!(rt; round_is_left(&rt));
    assert!(rt; is_removed(&rt, "shelf_links"));
}

/// Whether the save of which this call is denied is done over a file of this mode, and leaves it that one.
fn keeps_mode(rt: &HostRuntime, mode: u32, call: u64, after: u32) -> bool {
    let (folder, file) = ("shelf_modes", "shelf_modes/a");
    let plan = Plan::failing(call, 1, ErrorKind::PermissionDenied);
    is_made_with(rt, folder, file, mode)
        && saves(rt, &plan, file, NEW, Stored::Done)
        && holds(rt, file, NEW)
        && mode_of(rt, file) == Some(after)
        && has_files(rt, folder, 1)
}

/// Whether a file that nobody may write is left as it was.
fn keeps_to_mode(rt: &HostRuntime) -> bool {
    let (folder, file) = ("shelf_modes", "shelf_modes/a");
    let plan = Plan::failing(0, 1, ErrorKind::PermissionDenied);
    is_made_with(rt, folder, file, 0o444)
        && saves(rt, &plan, file, NEW, Stored::Failed)
        && holds(rt, file, OLD)
        && mode_of(rt, file) == Some(0o444)
        && has_files(rt, folder, 1)
}

#[test]
fn permissions_are_kept_and_kept_to(rt: HostRuntime) {
    assert!(rt; keeps_mode(&rt, 0o600, 0, 0o600));
    assert!(rt; keeps_mode(&rt, 0o755, 0, 0o755));
    assert!(rt; keeps_mode(&rt, 0o4755, 0, 0o4755));
    // Where the owner is not kept, nobody runs the file as its owner.
    assert!(rt; keeps_mode(&rt, 0o6755, 6, 0o755));
    assert!(rt; keeps_to_mode(&rt));
    assert!(rt; is_removed(&rt, "shelf_modes"));
}

/// Whether a read of the path answers this, and a save to it that.
fn is_left(rt: &HostRuntime, path: &str, answer: Shelved, stored: Stored) -> bool {
    let plan = Plan::calm(7);
    reads(rt, &plan, path, &answer) && saves(rt, &plan, path, NEW, stored)
}

/// Whether a folder is made that has a file, a folder and a link to a device.
fn has_kinds(rt: &HostRuntime) -> bool {
    is_made_with(rt, "shelf_kinds", "shelf_kinds/a", 0o600)
        && fs::create_dir(rt, "shelf_kinds/inner").is_ok()
        && is_linked(rt, "/dev/null", "shelf_kinds/device")
}

fn is_folder(rt: &HostRuntime, path: &str) -> bool {
    match fs::metadata(rt, path) {
        Ok(found) => found.is_dir(),
        Err(_) => false,
    }
}

/// Whether something stands there that is no file.
fn is_no_file(rt: &HostRuntime, path: &str) -> bool {
    match fs::metadata(rt, path) {
        Ok(found) => !found.is_file(),
        Err(_) => false,
    }
}

#[test]
fn what_is_no_ordinary_file_is_left_alone(rt: HostRuntime) {
    assert!(rt; has_kinds(&rt));
    assert!(rt; is_left(&rt, "shelf_kinds/inner", Shelved::Failed, Stored::Failed));
    assert!(rt; is_left(&rt, "shelf_kinds/device", Shelved::Failed, Stored::Failed));
    // A file is no folder.
    assert!(rt; is_left(&rt, "shelf_kinds/a/b", Shelved::Failed, Stored::Failed));
    assert!(rt;
        is_left(
            &rt,
            "shelf_kinds/missing/b",
            Shelved::Absent,
            Stored::Failed
        )
    );
    assert!(rt; is_left(&rt, "shelf_kinds/missing/", Shelved::Absent, Stored::Failed));
    assert!(rt; is_left(&rt, "shelf_kinds/b", Shelved::Absent, Stored::Done));
    assert!(rt; is_folder(&rt, "shelf_kinds/inner"));
    assert!(rt; is_no_file(&rt, "shelf_kinds/device"));
    assert!(rt; has_files(&rt, "shelf_kinds", 4));
    assert!(rt; is_removed(&rt, "shelf_kinds"));
}

/// Whether nothing stands at an empty path; the handle itself is asked here, and no plan.
fn is_nowhere(rt: &HostRuntime) -> bool {
    let mut shelf = FileShelf::new(rt);
    let nowhere = Text::new(rt.alloc());
    shelf.read(rt.alloc(), &nowhere) == Shelved::Absent
        && shelf.write(rt.alloc(), &nowhere, NEW) == Stored::Failed
}

#[test]
fn nothing_stands_at_an_empty_path(rt: HostRuntime) {
    assert!(rt; is_nowhere(&rt));
}

/// A shelf with the file `b` of the old bytes, whose second and fourth call fail.
fn failing_shelf(alloc: Global) -> Result<MemShelf, NoMemory> {
    let mut files = CalmShelf::new(alloc);
    let old = List::from_vec(Vec::from_slice(alloc, OLD)?);
    files.put(Text::from_str(alloc, "b")?, old)?;
    let failing = Vec::from_slice(alloc, &[2, 4])?;
    Ok(MemShelf::new(files, failing))
}

/// Whether a read answers this.
fn answers(alloc: Global, shelf: &mut MemShelf, path: &str, answer: Shelved) -> bool {
    match Text::from_str(alloc, path) {
        Ok(path) => shelf.read(alloc, &path) == answer,
        Err(_) => false,
    }
}

/// Whether a read gives these bytes.
fn lends(alloc: Global, shelf: &mut MemShelf, path: &str, bytes: &[u8]) -> bool {
    match held(alloc, bytes) {
        Ok(answer) => answers(alloc, shelf, path, answer),
        Err(_) => false,
    }
}

/// Whether a save answers this.
fn puts(alloc: Global, shelf: &mut MemShelf, path: &str, bytes: &[u8], answer: Stored) -> bool {
    match Text::from_str(alloc, path) {
        Ok(path) => shelf.write(alloc, &path, bytes) == answer,
        Err(_) => false,
    }
}

/// Whether the file stands on it without a byte.
fn is_empty_at(alloc: Global, shelf: &MemShelf, path: &str) -> bool {
    match Text::from_str(alloc, path) {
        Ok(path) => match shelf.files().get(&path) {
            Some(bytes) => bytes.is_empty(),
            None => false,
        },
        Err(_) => false,
    }
}

/// Whether so many files stand on it, so many calls were made, and so many faults counted.
fn has_counts(shelf: &MemShelf, files: usize, calls: u64, faults: u64) -> bool {
    shelf.files().len() == files && shelf.calls() == calls && shelf.faults() == faults
}

/// Whether a shelf goes so, call by call.
fn goes_by_its_calls(alloc: Global, shelf: &mut MemShelf) -> bool {
    lends(alloc, shelf, "b", OLD)
        && answers(alloc, shelf, "b", Shelved::Failed)
        && answers(alloc, shelf, "a", Shelved::Absent)
        && puts(alloc, shelf, "a", NEW, Stored::Failed)
        && has_counts(shelf, 1, 4, 2)
        && puts(alloc, shelf, "a", NEW, Stored::Done)
        && puts(alloc, shelf, "b", b"", Stored::Done)
        && lends(alloc, shelf, "a", NEW)
        && is_empty_at(alloc, shelf, "b")
        && has_counts(shelf, 2, 7, 2)
}

fn failing_shelf_goes_by_its_calls(alloc: Global) -> bool {
    match failing_shelf(alloc) {
        Ok(mut shelf) => goes_by_its_calls(alloc, &mut shelf),
        Err(_) => false,
    }
}

#[test]
fn shelves_in_memory_fail_when_told(rt: HostRuntime) {
    assert!(rt; failing_shelf_goes_by_its_calls(rt.alloc()));
}
