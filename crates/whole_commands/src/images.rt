// Folders in memory, and the files of a small system.
ghost use Rattle.std.specs.Prelude.{All, IfOk, OnOk};
ghost use Rattle.acct_outside.specs.Contract.{IsName};

use acct_outside::Name;
use acct_text::{Bytes, Tab};
use memory_folder::MemoryFolder;
use std::alloc::{AllocError, Global};

/// The files of a folder before its first command.
pub type Contents = Vec<(Name, Bytes)>;

/// The tables passwd and group, both empty, and this file, or it in place of one of them.
pub fn with_file(alloc: Global, name: Name, text: &[u8]) -> Result<Contents, AllocError>
    requires { IsName name }
    ensures { IfOk result (λ files. All (λ file. IsName file.0) files.items) }
{
    let mut files = Vec::new(alloc);
    put(&mut files, Name::Table(Tab::Passwd), b"")?;
    put(&mut files, Name::Table(Tab::Group), b"")?;
    put(&mut files, name, text)?;
    Ok(files)
}

/// Puts a file of this text among the others.
pub fn put(files: &mut Contents, name: Name, text: &[u8]) -> Result<(), AllocError>
    requires name { IsName name }
    requires names { All (λ file. IsName file.0) files.old.items }
    ensures { OnOk result (All (λ file. IsName file.0) files.new.items) }
{
    let text = Bytes::of(*files.allocator(), text)?;
    files.push((name, text))?;
    Ok(())
}

/// The files of a small system, by their names.
pub const IMAGE: [(&[u8], &[u8]); 7] = [
    (b"passwd", PASSWD),
    (b"shadow", SHADOW),
    (b"group", GROUP),
    (b"gshadow", GSHADOW),
    (b"subuid", SUBIDS),
    (b"subgid", SUBIDS),
    (b"login.defs", SETTINGS),
];

/// A folder with these files, in which no call fails.
pub fn sound_folder(alloc: Global, files: Contents) -> Result<MemoryFolder, AllocError>
    requires { All (λ file. IsName file.0) files.items }
{
    MemoryFolder::new(alloc, files, Vec::new(alloc), Vec::new(alloc))
}

const PASSWD: &[u8] = b"\
root:x:0:0:root:/root:/bin/bash
daemon:x:1:1:daemon:/usr/sbin:/usr/sbin/nologin
bin:x:2:2:bin:/bin:/usr/sbin/nologin
www-data:x:33:33:www-data:/var/www:/usr/sbin/nologin
_apt:x:100:65534::/nonexistent:/usr/sbin/nologin
messagebus:x:101:101::/nonexistent:/usr/sbin/nologin
nobody:x:65534:65534:nobody:/nonexistent:/usr/sbin/nologin
bob:x:1000:1000:Bob,,,:/home/bob:/bin/bash
";

const SHADOW: &[u8] = b"\
root:*:19700:0:99999:7:::
daemon:*:19700:0:99999:7:::
bin:*:19700:0:99999:7:::
www-data:*:19700:0:99999:7:::
_apt:*:19700:0:99999:7:::
messagebus:!:19700::::::
nobody:*:19700:0:99999:7:::
bob:$y$hash:19800:0:99999:7:::
";

const GROUP: &[u8] = b"\
root:x:0:
daemon:x:1:
bin:x:2:
sudo:x:27:bob
www-data:x:33:
users:x:100:
messagebus:x:101:
nogroup:x:65534:
bob:x:1000:
";

const GSHADOW: &[u8] = b"\
root:*::
daemon:*::
bin:*::
sudo:*::bob
www-data:*::
users:*::
messagebus:!::
nogroup:*::
bob:!::
";

const SUBIDS: &[u8] = b"bob:100000:65536\n";

const SETTINGS: &[u8] = b"\
# settings of the image
MAIL_DIR        /var/mail
PASS_MAX_DAYS   99999
PASS_MIN_DAYS   0
PASS_WARN_AGE   7
UID_MIN          1000
UID_MAX         60000
USERGROUPS_ENAB yes
UMASK           022
";
