// The system of a runtime, or one that lacks hard links, as FAT does, or /proc, as a bare chroot does, or on
// which what is staged, or the folder, can't be brought to the disk.
use std::alloc::Allocator;
use std::fs::{Metadata, OpenOptions, Permissions};
use std::io;
use std::os::fd::AsRawFd;
use std::path::PathBuf;
use std::rt::{Clock, Files};
use std::time::Duration;

/// What a system lacks.
#[derive(Clone, Copy, PartialEq, Eq)]
pub(crate) enum Lack {
    /// Nothing.
    Nothing,
    /// Hard links: each is refused.
    Links,
    /// What stands in /proc: nothing does.
    Proc,
    /// A sync of what is staged: each fails, though all is written.
    StageSync,
    /// A sync of the folder: each fails.
    FolderSync,
}

/// The files of a runtime, and its clock.
#[derive(Clone, Drop)]
pub(crate) struct Disk<R: Files + Clock + Clone + Drop> {
    rt: R,
    lack: Lack,
}

impl<R: Files + Clock + Clone + Drop> Disk<R> {
    /// Those that the runtime has.
    pub(crate) fn new(rt: R, lack: Lack) -> Self {
        Disk { rt, lack }
    }

    // Whether anything may stand at the path.
    fn see(&self, path: &str) -> io::Result<()> {
        if self.lack == Lack::Proc && path.starts_with("/proc") {
            return Err(io::Error::from(io::ErrorKind::NotFound));
        }
        if self.lack == Lack::FolderSync && path.ends_with("/etc") {
            return Err(io::Error::from(io::ErrorKind::PermissionDenied));
        }
        Ok(())
    }

    // Whether what is opened there is to fail where it is synced: the staging names end so.
    fn is_unsynced(&self, path: &str) -> bool {
        self.lack == Lack::StageSync && path.ends_with('+')
    }
}

// A file that takes what is written, and can't be synced: the end of a pipe, opened for both ways, so that
// it has a reader.
fn unsynced<R: Files + AllocGlobal>(rt: &R) -> io::Result<R::File> {
    let (_reader, writer) = io::pipe(rt)?;
    let path = format!(in rt.alloc(); "/proc/self/fd/{}", writer.as_raw_fd())?;
    OpenOptions::new()
        .read(true)
        .write(true)
        .open(rt, path.as_str())
}

impl<R: Files + Clock + Alloc + Clone + Drop> Alloc for Disk<R> {
    type A = R::A;

    fn alloc(&self) -> R::A {
        self.rt.alloc()
    }
}

impl<R: Files + Clock + Clone + Drop> Clock for Disk<R> {
    fn monotonic(&self) -> io::Result<Duration> {
        self.rt.monotonic()
    }

    fn since_1970(&self) -> io::Result<Duration> {
        self.rt.since_1970()
    }
}

impl<R: Files + Clock + AllocGlobal + Clone + Drop> Files for Disk<R> {
    type File = R::File;

    type Dir = R::Dir;

    fn open_file(&self, how: &OpenOptions, path: &str) -> io::Result<R::File> {
        self.see(path)?;
        let file = self.rt.open_file(how, path)?;
        if self.is_unsynced(path) {
            return unsynced(&self.rt);
        }
        Ok(file)
    }

    fn open_dir(&self, path: &str) -> io::Result<R::Dir> {
        self.rt.open_dir(path)
    }

    fn metadata(&self, path: &str) -> io::Result<Metadata> {
        self.see(path)?;
        self.rt.metadata(path)
    }

    fn symlink_metadata(&self, path: &str) -> io::Result<Metadata> {
        self.rt.symlink_metadata(path)
    }

    fn copy(&self, from: &str, to: &str) -> io::Result<u64> {
        self.rt.copy(from, to)
    }

    fn rename(&self, from: &str, to: &str) -> io::Result<()> {
        self.rt.rename(from, to)
    }

    fn remove_file(&self, path: &str) -> io::Result<()> {
        self.rt.remove_file(path)
    }

    fn create_dir(&self, path: &str) -> io::Result<()> {
        self.rt.create_dir(path)
    }

    fn remove_dir(&self, path: &str) -> io::Result<()> {
        self.rt.remove_dir(path)
    }

    fn remove_dir_all<B: Allocator>(&self, alloc: B, path: &str) -> io::Result<()> {
        self.rt.remove_dir_all(alloc, path)
    }

    fn read_link<B: Allocator>(&self, alloc: B, path: &str) -> io::Result<PathBuf<B>> {
        self.see(path)?;
        self.rt.read_link(alloc, path)
    }

    fn set_permissions(&self, path: &str, permissions: Permissions) -> io::Result<()> {
        self.rt.set_permissions(path, permissions)
    }

    fn lchown(&self, path: &str, uid: Option<u32>, gid: Option<u32>) -> io::Result<()> {
        self.rt.lchown(path, uid, gid)
    }

    fn hard_link(&self, original: &str, link: &str) -> io::Result<()> {
        match self.lack {
            Lack::Links => Err(io::Error::from(io::ErrorKind::Unsupported)),
            _ => self.rt.hard_link(original, link),
        }
    }
}
