// Whole files on a file system: what one call of a real folder does to one of them.
ghost use Rattle.std.specs.Prelude.{IfOk};
ghost use Rattle.acct_outside.specs.Contract.{IsWithinLimit};

use crate::faults::{SystemError, about};
use acct_outside::Found;
use acct_text::Bytes;
use std::fs::{File, Metadata, OpenFile, OpenOptions, Permissions};
use std::io::{Read, Write};
use std::os::unix::fs::{MetadataExt, OpenOptionsExt, PermissionsExt, lchown};
use std::rt::Files;
use std::{fs, io};

/// Whether a symbolic link at the path stands for the file that it leads to.
#[derive(Clone, Copy)]
pub(crate) enum Links {
    /// It does.
    Followed,
    /// It is an error, as all that is no regular file.
    Refused,
}

// What stands at the path, which is to be a regular file: a folder, a device, a pipe or a refused
// link is an error, as no rename may replace it.
fn regular<R: Files>(rt: &R, path: &str, links: Links) -> io::Result<Metadata> {
    let standing = match links {
        Links::Followed => fs::metadata(rt, path)?,
        Links::Refused => fs::symlink_metadata(rt, path)?,
    };
    if !standing.is_file() {
        return Err(io::Error::new(io::ErrorKind::InvalidInput, "not a regular file"));
    }
    Ok(standing)
}

// The bytes of a file that stands, where it has at most `limit`.
fn read_standing<R: Files + AllocGlobal>(
    rt: &R,
    path: &str,
    links: Links,
    limit: u64,
) -> io::Result<Found>
    ensures { IfOk result (IsWithinLimit limit) }
{
    let size = regular(rt, path, links)?.len();
    if size > limit {
        return Ok(Found::TooLarge);
    }
    // The file may have grown since, so one byte past the limit is asked for, and there is room for
    // one past the size: that the end is there is seen without a move of all bytes.
    let mut bytes = Vec::with_capacity(rt.alloc(), size.saturating_add(1) as usize)?;
    let mut front = File::open(rt, path)?.take(limit.saturating_add(1));
    front.read_to_end(&mut bytes)?;
    if bytes.len() as u64 > limit {
        return Ok(Found::TooLarge);
    }
    Ok(Found::Held(Bytes::of_vec(bytes)))
}

/// What stands at the path, up to `limit` bytes.
pub(crate) fn read<R: Files + AllocGlobal>(
    rt: &R,
    path: &str,
    links: Links,
    limit: u64,
) -> io::Result<Found>
    ensures { IfOk result (IsWithinLimit limit) }
{
    match read_standing(rt, path, links, limit) {
        Err(e) if e.kind() == io::ErrorKind::NotFound => Ok(Found::Absent),
        found => found,
    }
}

/// Makes an empty file at a path where nothing stands, with this mode whatever the umask is.
pub(crate) fn make<R: Files>(rt: &R, path: &str, mode: u32) -> io::Result<R::File> {
    let file = OpenOptions::new()
        .write(true)
        .create_new(true)
        .mode(mode)
        .open(rt, path)?;
    file.set_permissions(Permissions::from_mode(mode))?;
    Ok(file)
}

/// Writes the bytes of a file to the disk.
pub(crate) fn fill<F: Write + OpenFile>(file: &mut F, bytes: &[u8]) -> io::Result<()> {
    file.write_all(bytes)?;
    file.sync_all()
}

/// Removes the file at the path, if there is one.
pub(crate) fn remove<R: Files>(rt: &R, path: &str) -> io::Result<()> {
    match fs::remove_file(rt, path) {
        Err(e) if e.kind() == io::ErrorKind::NotFound => Ok(()),
        removed => removed,
    }
}

/// Makes a file anew, so that what stood there lends it neither its mode nor its readers.
pub(crate) fn renew<R: Files>(rt: &R, path: &str, mode: u32) -> io::Result<R::File> {
    remove(rt, path)?;
    make(rt, path, mode)
}

/// Gives a file the owner, the group and the mode of another, where that one stands.
///
/// The system lets few give a file away, so where it forbids that, the owner or the group stays as it is.
pub(crate) fn take_on<R: Files + AllocGlobal>(
    rt: &R,
    path: &str,
    model: &str,
) -> Result<(), SystemError> {
    let standing = match regular(rt, model, Links::Refused) {
        Err(e) if e.kind() == io::ErrorKind::NotFound => return Ok(()),
        standing => about(rt.alloc(), model, standing)?,
    };
    let owned = unless_forbidden(lchown(rt, path, Some(standing.uid()), None));
    about(rt.alloc(), path, owned)?;
    let owned = unless_forbidden(lchown(rt, path, None, Some(standing.gid())));
    about(rt.alloc(), path, owned)?;
    let set = fs::set_permissions(rt, path, standing.permissions());
    about(rt.alloc(), path, set)
}

// What the system answered a change of owner, where that it forbids it is no error.
fn unless_forbidden(changed: io::Result<()>) -> io::Result<()> {
    match changed {
        Err(e) if e.kind() == io::ErrorKind::PermissionDenied => Ok(()),
        changed => changed,
    }
}

/// Makes what was written to a file last.
pub(crate) fn sync<R: Files>(rt: &R, path: &str) -> io::Result<()> {
    File::open(rt, path)?.sync_all()
}

/// Makes the renames within a folder last.
///
/// Some file systems sync no folder and say so by `InvalidInput`: what they keep is theirs to say.
pub(crate) fn sync_folder<R: Files>(rt: &R, path: &str) -> io::Result<()> {
    match sync(rt, path) {
        Err(e) if e.kind() == io::ErrorKind::InvalidInput => Ok(()),
        synced => synced,
    }
}
