//! A file system that counts its calls, those on an open file too, and of which some fail.

use std::alloc::Allocator;
use std::cell::Cell;
use std::fs::{Metadata, OpenFile, OpenOptions, Permissions};
use std::io;
use std::io::{ErrorKind, Read, Seek, SeekFrom, Write};
use std::path::PathBuf;
use std::rt::Files;

/// How the calls go.
#[derive(Drop)]
pub struct Plan {
    /// How many calls were made.
    made: Cell<u64>,
    /// The calls from `first` on fail, `count` of them, with an error of this kind.
    first: u64,
    count: u64,
    kind: ErrorKind,
    /// The most bytes that one read or write moves, at least one.
    greatest: usize,
}

impl Plan {
    /// No call fails, and one read or write moves `greatest` bytes at most.
    pub fn calm(greatest: usize) -> Plan {
        Plan {
            made: Cell::new(0),
            first: 0,
            count: 0,
            kind: ErrorKind::Other,
            greatest,
        }
    }

    /// The calls from `first` on fail, `count` of them.
    pub fn failing(first: u64, count: u64, kind: ErrorKind) -> Plan {
        Plan {
            made: Cell::new(0),
            first,
            count,
            kind,
            greatest: usize::MAX,
        }
    }

    /// Counts a call, which may be one that fails.
    fn pass(&self) -> io::Result<()> {
        let call = self.made.get().saturating_add(1);
        self.made.set(call);
        if self.first <= call && call - self.first < self.count {
            Err(io::Error::from(self.kind))
        } else {
            Ok(())
        }
    }
}

/// The file system of `rt`, whose calls go by the plan. Nobody may write a file without write permission, not even the root user.
#[derive(Clone, Copy)]
pub struct Counted<'a, R> {
    rt: &'a R,
    plan: &'a Plan,
}

impl<'a, R> Counted<'a, R> {
    pub fn new(rt: &'a R, plan: &'a Plan) -> Counted<'a, R> {
        Counted { rt, plan }
    }
}

/// An open file, whose calls go by the plan too.
#[derive(Drop)]
pub struct CountedFile<'a, F> {
    file: F,
    plan: &'a Plan,
}

impl<'a, R: Files> Files for Counted<'a, R> {
    type File = CountedFile<'a, R::File>;

    type Dir = R::Dir;

    fn open_file(&self, how: &OpenOptions, path: &str) -> io::Result<CountedFile<'a, R::File>> {
        self.plan.pass()?;
        if how.asks_write()
            && !how.asks_create_new()
            && self.rt.metadata(path)?.permissions().readonly()
        {
            return Err(io::Error::from(ErrorKind::PermissionDenied));
        }
        Ok(CountedFile {
            file: self.rt.open_file(how, path)?,
            plan: self.plan,
        })
    }

    fn open_dir(&self, path: &str) -> io::Result<R::Dir> {
        self.plan.pass()?;
        self.rt.open_dir(path)
    }

    fn metadata(&self, path: &str) -> io::Result<Metadata> {
        self.plan.pass()?;
        self.rt.metadata(path)
    }

    fn symlink_metadata(&self, path: &str) -> io::Result<Metadata> {
        self.plan.pass()?;
        self.rt.symlink_metadata(path)
    }

    fn copy(&self, from: &str, to: &str) -> io::Result<u64> {
        self.plan.pass()?;
        self.rt.copy(from, to)
    }

    fn rename(&self, from: &str, to: &str) -> io::Result<()> {
        self.plan.pass()?;
        self.rt.rename(from, to)
    }

    fn remove_file(&self, path: &str) -> io::Result<()> {
        self.plan.pass()?;
        self.rt.remove_file(path)
    }

    fn create_dir(&self, path: &str) -> io::Result<()> {
        self.plan.pass()?;
        self.rt.create_dir(path)
    }

    fn remove_dir(&self, path: &str) -> io::Result<()> {
        self.plan.pass()?;
        self.rt.remove_dir(path)
    }

    fn remove_dir_all<B: Allocator>(&self, alloc: B, path: &str) -> io::Result<()> {
        self.plan.pass()?;
        self.rt.remove_dir_all(alloc, path)
    }

    fn read_link<B: Allocator>(&self, alloc: B, path: &str) -> io::Result<PathBuf<B>> {
        self.plan.pass()?;
        self.rt.read_link(alloc, path)
    }

    fn lchown(&self, path: &str, uid: Option<u32>, gid: Option<u32>) -> io::Result<()> {
        self.plan.pass()?;
        self.rt.lchown(path, uid, gid)
    }
}

impl<'a, F: OpenFile> OpenFile for CountedFile<'a, F> {
    fn metadata(&self) -> io::Result<Metadata> {
        self.plan.pass()?;
        self.file.metadata()
    }

    fn set_len(&self, size: u64) -> io::Result<()> {
        self.plan.pass()?;
        self.file.set_len(size)
    }

    fn sync_all(&self) -> io::Result<()> {
        self.plan.pass()?;
        self.file.sync_all()
    }

    fn sync_data(&self) -> io::Result<()> {
        self.plan.pass()?;
        self.file.sync_data()
    }

    fn set_permissions(&self, perm: Permissions) -> io::Result<()> {
        self.plan.pass()?;
        self.file.set_permissions(perm)
    }
}

impl<'a, F: Read> Read for CountedFile<'a, F> {
    fn read(&mut self, buf: &mut [u8]) -> io::Result<usize> {
        self.plan.pass()?;
        let room = buf.len().min(self.plan.greatest);
        self.file.read(&mut buf[..room])
    }
}

impl<'a, F: Write> Write for CountedFile<'a, F> {
    fn write(&mut self, buf: &[u8]) -> io::Result<usize> {
        self.plan.pass()?;
        let room = buf.len().min(self.plan.greatest);
        self.file.write(&buf[..room])
    }

    fn flush(&mut self) -> io::Result<()> {
        self.plan.pass()?;
        self.file.flush()
    }
}

impl<'a, F: Seek> Seek for CountedFile<'a, F> {
    fn seek(&mut self, to: SeekFrom) -> io::Result<u64> {
        self.plan.pass()?;
        self.file.seek(to)
    }
}
