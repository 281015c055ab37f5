ghost use Rattle.std.specs.Prelude.{◌≡◌, ◌≢◌, ◌↔◌, None, Some, Ok, Err, IfOk, IfSome, OnOk};
ghost use Rattle.std.specs.Result.{IsErrAnd};
ghost use Rattle.std.specs.IoError.{error_kind};
ghost use Rattle.std.specs.Io.KnownBytes.{Consumes, IsAtEnd};
ghost use Rattle.std.specs.Fs.{file_type, IsFile};

use crate::file_fault::FileFault;
use std::alloc::Global;
use std::fs::{Metadata, OpenOptions};
use std::io;
use std::io::{ErrorKind, Read};
use std::rt::Files;

/// How often one file is read from, before that counts as a fault.
const READS: u64 = 1 << 32;

/// How many bytes one read asks for.
const PIECE: usize = 1 << 16;

/// The bytes of a file, by what was found where it was looked up; `None` where there was no such file.
pub(crate) fn read_found<R: Files>(
    files: &R,
    alloc: Global,
    path: &str,
    found: io::Result<Metadata>,
) -> Result<Option<Vec<u8>>, FileFault>
    ensures absent { (result ≡ Ok None) ↔ IsErrAnd found (λ e. error_kind e ≡ ErrorKind.NotFound) }
{
    match ordinary(found)? {
        Some(known) => Ok(Some(read_file(files, alloc, path, known.len() as usize)?)),
        None => Ok(None),
    }
}

/// The bytes of a file that is there.
fn read_file<R: Files>(
    files: &R,
    alloc: Global,
    path: &str,
    expected: usize,
) -> Result<Vec<u8>, FileFault> {
    let mut file = OpenOptions::new().read(true).open(files, path)?;
    read_whole(&mut file, alloc, expected)
}

/// What is known of an ordinary file; `None` where nothing is there. All else that is there is a fault.
pub(crate) fn ordinary(found: io::Result<Metadata>) -> Result<Option<Metadata>, FileFault>
    ensures missing { (result ≡ Ok None) ↔ IsErrAnd found (λ e. error_kind e ≡ ErrorKind.NotFound) }
    ensures file { IfOk result (λ known. IfSome known (λ metadata. IsFile (file_type metadata))) }
    ensures known { IfOk found (λ metadata. IsFile (file_type metadata) → result ≡ Ok (Some metadata)) }
    ensures fault { result ≢ Err FileFault.NoMemory }
{
    match found {
        Ok(found) if found.is_file() => Ok(Some(found)),
        Err(error) if error.kind() == ErrorKind::NotFound => Ok(None),
        _ => Err(FileFault::System),
    }
}

/// The bytes up to the end, in a buffer that is asked for by the length that is expected. An interruption is no fault.
fn read_whole<F: Read>(file: &mut F, alloc: Global, expected: usize) -> Result<Vec<u8>, FileFault>
    ensures bytes { IfOk result
        (λ bytes. Consumes (F.remaining file.old) (F.remaining file.new) bytes.items) }
    ensures end { OnOk result (IsAtEnd (F.remaining file.new)) }
{
    let mut bytes = Vec::with_capacity(alloc, expected)?;
    let mut piece = [0; PIECE];
    for _ in 0..READS {
        match file.read(&mut piece) {
            Ok(0) => return Ok(bytes),
            Ok(count) => bytes.extend_from_slice(&piece[..count])?,
            Err(error) if error.kind() == ErrorKind::Interrupted => {}
            Err(_) => return Err(FileFault::System),
        }
    }
    Err(FileFault::System)
}
