ghost use Rattle.std.specs.Prelude.{◌≡◌, ℕ, IfOk, IfSome, OnOk, string_bytes};
ghost use Rattle.std.specs.Io.KnownBytes.{Appends};
ghost use Rattle.std.specs.Fs.{file_type, IsFile};
ghost use Rattle.outside.specs.Paths.{IsFolder, IsFront, LeadsTo, LinksTo, StandsBefore, StandsBeside};

use crate::file_fault::FileFault;
use crate::reading::ordinary;
use std::alloc::Global;
use std::fs::{Metadata, OpenFile, OpenOptions};
use std::io;
use std::io::{ErrorKind, Write};
use std::os::unix::fs::{MetadataExt, OpenOptionsExt, PermissionsExt};
use std::rt::Files;

/// How many links are followed, one after the other.
const LINKS: u32 = 40;

/// How many names are tried for a new file.
const NAMES: u32 = 1 << 16;

/// A mode for its user alone.
const PRIVATE: u32 = 0o600;

/// The bits by which a program runs as its file's user or group.
const SET_ID: u32 = 0o6000;

/// The file that a path names, through links, and what is known of it where it is there.
#[derive(Drop)]
struct Target {
    path: String,
    old: Option<Metadata>,
}

/// A new file in the target's folder, which is to take the target's place.
#[derive(Drop)]
struct Draft<F> {
    path: String,
    file: F,
}

/// Saves the bytes as the file that the path names, whole or not at all. The old file is replaced in one step; before that
/// the new bytes are with the system's storage.
pub(crate) fn save<R: Files>(
    files: &R,
    alloc: Global,
    path: &str,
    bytes: &[u8],
) -> Result<(), FileFault> {
    let target = target_of(files, alloc, path)?;
    check_writable(files, &target)?;
    let folder = OpenOptions::new()
        .read(true)
        .open(files, folder_of(target.path.as_str()))?;
    let mut draft = new_draft(files, alloc, &target)?;
    replace(files, &mut draft, &target, bytes)?;
    Ok(folder.sync_all()?)
}

/// Follows links to the file that the path names, which need not be there.
fn target_of<R: Files>(files: &R, alloc: Global, path: &str) -> Result<Target, FileFault>
    ensures old { IfOk result (λ target. IfSome target.old (λ known. IsFile (file_type known))) }
    ensures leads { IfOk result (λ target. (links : ℕ) × LeadsTo links path.now (string_bytes target.path)) }
{
    let mut reached = String::from_str(alloc, path)?;
    for _ in 0..LINKS {
        match files.symlink_metadata(reached.as_str()) {
            Ok(found) if found.is_symlink() => reached = linked(files, alloc, reached.as_str())?,
            found => {
                let old = ordinary(found)?;
                return Ok(Target { path: reached, old });
            }
        }
    }
    Err(FileFault::System)
}

/// The path that a link names.
fn linked<R: Files>(files: &R, alloc: Global, link: &str) -> Result<String, FileFault>
    ensures { IfOk result (λ path. LinksTo link.now (string_bytes path)) }
{
    let named = match files.read_link(alloc, link) {
        Ok(named) => named,
        Err(error) if error.kind() == ErrorKind::OutOfMemory => return Err(FileFault::NoMemory),
        Err(_) => return Err(FileFault::System),
    };
    let name = named.as_str();
    let front = before(link, name);
    Ok(format!(in alloc; "{front}{name}")?)
}

/// What stands before the name of a link where it is followed.
fn before<'a>(link: &'a str, name: &str) -> &'a str
    ensures { StandsBefore link.now name.now result.now }
{
    match name.as_bytes() {
        [first, ..] if *first == b'/' => "",
        _ => front_of(link),
    }
}

/// A path up to its last slash, with it.
fn front_of(path: &str) -> &str
    ensures { IsFront path.now result.now }
{
    match path.rfind('/') {
        Some(slash) => &path[..slash + 1],
        None => "",
    }
}

/// The folder in which the path stands.
fn folder_of(path: &str) -> &str
    ensures { IsFolder path.now result.now }
{
    match front_of(path) {
        "" => ".",
        front => front,
    }
}

/// An old file is replaced only where the user may write it.
fn check_writable<R: Files>(files: &R, target: &Target) -> io::Result<()> {
    if target.old.is_some() {
        OpenOptions::new()
            .write(true)
            .open(files, target.path.as_str())?;
    }
    Ok(())
}

/// Makes a new file under a name that no file has. It is for its user alone until it is given an old file's permissions.
fn new_draft<R: Files>(
    files: &R,
    alloc: Global,
    target: &Target,
) -> Result<Draft<R::File>, FileFault>
    ensures beside { IfOk result (λ draft. StandsBeside (string_bytes target.now.path) (string_bytes draft.path)) }
{
    let mut how = OpenOptions::new();
    how.write(true).create_new(true);
    if target.old.is_some() {
        how.mode(PRIVATE);
    }
    let front = front_of(target.path.as_str());
    for number in 0..NAMES {
        let path = format!(in alloc; "{front}.xi-save-{number}")?;
        match how.open(files, path.as_str()) {
            Ok(file) => return Ok(Draft { path, file }),
            Err(error) if error.kind() == ErrorKind::AlreadyExists => {}
            Err(_) => return Err(FileFault::System),
        }
    }
    Err(FileFault::System)
}

/// Fills the new file and puts it in the target's place. Where a step fails, the new file is removed.
fn replace<R: Files>(
    files: &R,
    draft: &mut Draft<R::File>,
    target: &Target,
    bytes: &[u8],
) -> io::Result<()>
    ensures { OnOk result (Appends (R.File.contents draft.old.file) (R.File.contents draft.new.file) bytes.now) }
{
    let path = draft.path.as_str();
    let filled = fill(files, &mut draft.file, path, target, bytes);
    let replaced = match filled {
        Ok(()) => files.rename(path, target.path.as_str()),
        Err(error) => Err(error),
    };
    if replaced.is_err() {
        let _ = files.remove_file(path);
    }
    replaced
}

/// All bytes, then the old file's access, then the sync of both.
fn fill<R: Files>(
    files: &R,
    file: &mut R::File,
    path: &str,
    target: &Target,
    bytes: &[u8],
) -> io::Result<()>
    ensures { OnOk result (Appends (R.File.contents file.old) (R.File.contents file.new) bytes.now) }
{
    file.write_all(bytes)?;
    if let Some(old) = &target.old {
        keep_access(files, file, path, old)?;
    }
    file.sync_all()
}

/// Gives the new file the old one's permissions, and its owner and group where the system allows it. Where it doesn't, the
/// file runs as nobody else.
fn keep_access<R: Files>(files: &R, file: &R::File, path: &str, old: &Metadata) -> io::Result<()> {
    let mut permissions = old.permissions();
    if !keep_owner(files, path, old) {
        permissions.set_mode(permissions.mode() & !SET_ID);
    }
    file.set_permissions(permissions)
}

/// Whether the new file has the old one's owner and group now. The group is kept also where the owner is not.
fn keep_owner<R: Files>(files: &R, path: &str, old: &Metadata) -> bool {
    let (owner, group) = (Some(old.uid()), Some(old.gid()));
    if files.lchown(path, owner, group).is_ok() {
        return true;
    }
    let _ = files.lchown(path, None, group);
    false
}
