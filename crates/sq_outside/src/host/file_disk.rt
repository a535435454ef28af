//! A disk of two real files.
ghost use Rattle.std.specs.Prelude.{◌≡◌, ◌≤◌, ◌<◌, ◌+◌, ◌^◌, ◌↔◌, Ok, None, IsTrue, IsErr, IfOk, OnOk, length, drop};
ghost use Rattle.std.specs.Io.{ReadsAtMost};
ghost use Rattle.sq_outside.specs.Disk.{nth};
ghost use Rattle.sq_outside.specs.Fault.{HasCause};
ghost use Rattle.sq_outside.specs.FileDisk.{as_opened};

use crate::buffer::copy_prefix;
use crate::{Disk, Failed, GREATEST_LENGTH};
use std::fs::{self, File, OpenFile, OpenOptions};
use std::io;
use std::os::fd::AsRawFd;
use std::os::unix::fs::FileExt;
use std::path::Path;

/// A disk of two files. Where a file couldn't be opened, each call on it fails. After a failed sync the system may drop
/// what was written, and answer the next sync with `Ok`, so a file whose sync failed isn't synced again: each later sync
/// fails.
#[derive(Drop)]
pub struct FileDisk<F: OpenFile + FileExt> {
    files: (DiskFile<F>, DiskFile<F>),
    faults: u64,
}

/// A file as its opening and its syncs went.
#[derive(Drop)]
pub(crate) struct DiskFile<F: OpenFile + FileExt> {
    file: Option<F>,
    sync_failed: bool,
}

impl FileDisk<File> {
    /// The disk of the files of these names in this folder, numbered 0 and 1. One that is missing is made. What an earlier
    /// program left in the system's memory is synced and then read anew, and the folder is synced, so that the names too
    /// outlast a crash.
    pub fn open(rt: &HostRuntime, folder: Path<'_>, names: [&str; 2]) -> Self
        ensures { result.faults ≡ 0 }
    {
        FileDisk::new(
            open_settled(rt, folder, names[0]),
            open_settled(rt, folder, names[1]),
        )
    }
}

fn open_settled(rt: &HostRuntime, folder: Path<'_>, name: &str) -> io::Result<File> {
    let path = folder.join(rt.alloc(), name)?;
    let mut how = OpenOptions::new();
    how.read(true).write(true).create(true);
    let file = how.open(rt, path.as_path())?;
    file.sync_all()?;
    let refused = libc::posix_fadvise(file.as_raw_fd(), 0, 0, libc::POSIX_FADV_DONTNEED);
    if refused != 0 {
        return Err(io::Error::from_raw_os_error(refused));
    }
    fs::open(rt, folder)?.sync_all()?;
    Ok(file)
}

impl<F: OpenFile + FileExt> FileDisk<F> {
    /// The disk of these files, numbered 0 and 1. They are read and written, and that what they read and their names outlast
    /// a crash is for their opener to sync.
    pub fn new(file0: io::Result<F>, file1: io::Result<F>) -> Self
        ensures files { result.files ≡ (as_opened file0, as_opened file1) }
        ensures faults { result.faults ≡ 0 }
    {
        FileDisk {
            files: (DiskFile::new(file0), DiskFile::new(file1)),
            faults: 0,
        }
    }

    fn file(&self, file: u8) -> &DiskFile<F>
        ensures { result.now ≡ nth file self.now.files }
    {
        if file == 0 {
            &self.files.0
        } else {
            &self.files.1
        }
    }

    fn counting_failure<T: Drop>(&mut self, answer: io::Result<T>) -> Result<T, Failed>
        ensures same { IfOk result (λ value. answer ≡ Ok value) }
        ensures failed { IsErr result ↔ IsErr answer }
        ensures cause { HasCause self.old.faults self.new.faults result }
        ensures files { self.new.files ≡ self.old.files }
    {
        match answer {
            Ok(value) => Ok(value),
            Err(_) => {
                self.faults = self.faults.saturating_add(1);
                Err(Failed)
            }
        }
    }
}

impl<F: OpenFile + FileExt> Disk for FileDisk<F> {
    ghost use Rattle.std.specs.Prelude.{◌≡◌, ◌≤◌, ◌<◌, ◌+◌, ◌-◌, ◌^◌, ◌↔◌, None, IsTrue, IsErr, IfOk, OnOk, length, drop};
    ghost use Rattle.sq_outside.specs.Disk.{nth};
    ghost use Rattle.sq_outside.specs.Fault.{HasCause};

    ghost history = { λ _. None };

    ghost faults = { λ d. d.faults };

    ghost sound = { λ _. tt };

    fn len(&mut self, file: u8) -> Result<u64, Failed>
        requires { file ≤ 1 }
        ensures unopened { (nth file self.old.files).file ≡ None → IsErr result }
        ensures files { self.new.files ≡ self.old.files }
        ensures cause { HasCause self.old.faults self.new.faults result }
    {
        let answer = self.file(file).len();
        self.counting_failure(answer)
    }

    fn read_at(&mut self, file: u8, at: u64, buf: &mut [u8]) -> Result<usize, Failed>
        requires { file ≤ 1 }
        ensures within { IfOk result (λ n. n ≤ length buf.old) }
        ensures after { IfOk result (λ n. drop n buf.new ≡ drop n buf.old) }
        ensures unopened { (nth file self.old.files).file ≡ None → IsErr result }
        ensures files { self.new.files ≡ self.old.files }
        ensures cause { HasCause self.old.faults self.new.faults result }
    {
        let answer = self.file(file).read_at(at, buf);
        self.counting_failure(answer)
    }

    fn write_at(&mut self, file: u8, at: u64, piece: &[u8]) -> Result<(), Failed>
        requires { file ≤ 1 }
        ensures fits { OnOk result (at + length piece.now < 2 ^ 63) }
        ensures unopened { (nth file self.old.files).file ≡ None → IsErr result }
        ensures files { self.new.files ≡ self.old.files }
        ensures cause { HasCause self.old.faults self.new.faults result }
    {
        let answer = self.file(file).write_at(at, piece);
        self.counting_failure(answer)
    }

    fn cut(&mut self, file: u8, len: u64) -> Result<(), Failed>
        requires { file ≤ 1 }
        ensures unopened { (nth file self.old.files).file ≡ None → IsErr result }
        ensures files { self.new.files ≡ self.old.files }
        ensures cause { HasCause self.old.faults self.new.faults result }
    {
        let answer = self.file(file).cut(len);
        self.counting_failure(answer)
    }

    fn sync(&mut self, file: u8) -> Result<(), Failed>
        requires { file ≤ 1 }
        ensures unopened { (nth file self.old.files).file ≡ None → IsErr result }
        ensures refused { IsTrue (nth file self.old.files).sync_failed → IsErr result }
        ensures remembered { IsTrue (nth file self.new.files).sync_failed ↔ IsErr result }
        ensures this { (nth file self.new.files).file ≡ (nth file self.old.files).file }
        ensures other { nth (1 - file) self.new.files ≡ nth (1 - file) self.old.files }
        ensures cause { HasCause self.old.faults self.new.faults result }
    {
        let answer = if file == 0 {
            self.files.0.sync()
        } else {
            self.files.1.sync()
        };
        self.counting_failure(answer)
    }
}

impl<F: OpenFile + FileExt> DiskFile<F> {
    fn new(opening: io::Result<F>) -> Self
        ensures { result ≡ as_opened opening }
    {
        DiskFile {
            file: opening.ok(),
            sync_failed: false,
        }
    }

    fn opened(&self) -> io::Result<&F>
        ensures { self.now.file ≡ None → IsErr result }
    {
        match &self.file {
            Some(file) => Ok(file),
            None => Err(io::Error::other("the file couldn't be opened")),
        }
    }

    fn len(&self) -> io::Result<u64>
        ensures { self.now.file ≡ None → IsErr result }
    {
        Ok(self.opened()?.metadata()?.len())
    }

    fn read_at(&self, at: u64, buf: &mut [u8]) -> io::Result<usize>
        ensures within { IfOk result (λ n. n ≤ length buf.old) }
        ensures after { IfOk result (λ n. drop n buf.new ≡ drop n buf.old) }
        ensures unopened { self.now.file ≡ None → IsErr result }
    {
        read_all_at(self.opened()?, at, buf)
    }

    fn write_at(&self, at: u64, piece: &[u8]) -> io::Result<()>
        ensures fits { OnOk result (at + length piece.now < 2 ^ 63) }
        ensures unopened { self.now.file ≡ None → IsErr result }
    {
        if at > GREATEST_LENGTH || piece.len() as u64 > GREATEST_LENGTH - at {
            return Err(io::ErrorKind::FileTooLarge.into());
        }
        self.opened()?.write_all_at(piece, at)
    }

    fn cut(&self, len: u64) -> io::Result<()>
        ensures { self.now.file ≡ None → IsErr result }
    {
        self.opened()?.set_len(len)
    }

    fn sync(&mut self) -> io::Result<()>
        ensures unopened { self.old.file ≡ None → IsErr result }
        ensures refused { IsTrue self.old.sync_failed → IsErr result }
        ensures remembered { IsTrue self.new.sync_failed ↔ IsErr result }
        ensures file { self.new.file ≡ self.old.file }
    {
        if self.sync_failed {
            return Err(io::Error::other("an earlier sync failed"));
        }
        let answer = self.sync_data();
        self.sync_failed = answer.is_err();
        answer
    }

    fn sync_data(&self) -> io::Result<()>
        ensures { self.now.file ≡ None → IsErr result }
    {
        self.opened()?.sync_data()
    }
}

fn read_all_at<F: FileExt>(file: &F, at: u64, buf: &mut [u8]) -> io::Result<usize>
    ensures within { IfOk result (λ n. n ≤ length buf.old) }
    ensures after { IfOk result (λ n. drop n buf.new ≡ drop n buf.old) }
{
    let mut filled = 0;
    while filled < buf.len() {
        let n = read_some_at(file, at.saturating_add(filled as u64), &mut buf[filled..])?;
        if n == 0 {
            break;
        }
        filled += n;
    }
    Ok(filled)
}

// No file says what it leaves after the bytes that it gave, so they come by way of a buffer of its own.
fn read_some_at<F: FileExt>(file: &F, at: u64, buf: &mut [u8]) -> io::Result<usize>
    ensures within { IfOk result (λ n. n ≤ length buf.old) }
    ensures after { IfOk result (λ n. drop n buf.new ≡ drop n buf.old) }
{
    let mut own = [0; 8192];
    let room = own.len().min(buf.len());
    let n = file.read_at(&mut own[..room], at)?;
    Ok(copy_prefix(&own[..n], buf))
}

#[cfg(test)]
mod tests {
    use super::*;
    use crate::host::test_folder::new_folder;
    use std::cell::Cell;
    use std::fs::Metadata;
    use std::process::Abort;
    use std::test::Fail;

    // A file that moves three bytes a call and whose second sync fails. It counts its syncs.
    #[derive(Drop)]
    struct SlowFile {
        file: File,
        syncs: Cell<u32>,
    }

    impl OpenFile for SlowFile {
        fn metadata(&self) -> io::Result<Metadata> {
            self.file.metadata()
        }

        fn set_len(&self, size: u64) -> io::Result<()> {
            self.file.set_len(size)
        }

        fn sync_all(&self) -> io::Result<()> {
            Err(io::ErrorKind::Unsupported.into())
        }

        fn sync_data(&self) -> io::Result<()> {
            let call = self.syncs.get().saturating_add(1);
            self.syncs.set(call);
            if call == 2 {
                return Err(io::Error::other("broken"));
            }
            Ok(())
        }
    }

    impl FileExt for SlowFile {
        fn read_at(&self, buf: &mut [u8], offset: u64) -> io::Result<usize> {
            let room = buf.len().min(3);
            self.file.read_at(&mut buf[..room], offset)
        }

        fn write_at(&self, buf: &[u8], offset: u64) -> io::Result<usize> {
            let room = buf.len().min(3);
            self.file.write_at(&buf[..room], offset)
        }
    }

    fn syncs(file: &DiskFile<SlowFile>) -> Option<u32> {
        file.file.as_ref().map(|file| file.syncs.get())
    }

    fn slow(rt: &HostRuntime, folder: Path<'_>, name: &str) -> io::Result<SlowFile> {
        Ok(SlowFile {
            file: open_settled(rt, folder, name)?,
            syncs: Cell::new(0),
        })
    }

    fn uses_slow_files<R: Abort>(rt: &R, disk: &mut FileDisk<SlowFile>) -> Result<(), Fail> {
        let mut buf = [b'.'; 10];
        disk.write_at(0, 0, b"other")?;
        disk.write_at(1, 0, b"abcdefgh")?;
        disk.write_at(1, 5, b"FGHI")?;
        disk.cut(1, 8)?;
        assert_eq!(rt; disk.read_at(1, 1, &mut buf), Ok(7));
        assert_eq!(rt; &buf, b"bcdeFGH...");
        assert_eq!(rt; (disk.len(0), disk.len(1)), (Ok(5), Ok(8)));
        assert_eq!(rt;
            [disk.sync(1), disk.sync(1), disk.sync(1)],
            [Ok(()), Err(Failed), Err(Failed)]
        );
        assert_eq!(rt; (disk.sync(0), disk.faults), (Ok(()), 2));
        assert_eq!(rt;
            (syncs(&disk.files.0), syncs(&disk.files.1)),
            (Some(1), Some(2))
        );
        Ok(())
    }

    fn uses_real_files<R: Abort>(rt: &R, disk: &mut FileDisk<File>) -> Result<(), Fail> {
        let mut buf = [b'.'; 8];
        assert_eq!(rt; disk.read_at(1, 1, &mut buf), Ok(7));
        assert_eq!(rt; &buf, b"bcdeFGH.");
        assert_eq!(rt; disk.write_at(0, GREATEST_LENGTH, b"x"), Err(Failed));
        assert_eq!(rt; disk.write_at(0, u64::MAX, b"x"), Err(Failed));
        assert_eq!(rt;
            (disk.sync(0), disk.len(0), disk.faults),
            (Ok(()), Ok(5), 2)
        );
        Ok(())
    }

    fn uses(rt: &HostRuntime, abort: &impl Abort, folder: Path<'_>) -> Result<(), Fail> {
        let names = ["zeroth", "first"];
        let mut disk = FileDisk::new(slow(rt, folder, names[0]), slow(rt, folder, names[1]));
        uses_slow_files(abort, &mut disk)?;
        uses_real_files(abort, &mut FileDisk::open(rt, folder, names))?;

        let mut unopened = FileDisk::open(rt, folder, ["first", "missing/below"]);
        assert_eq!(abort;
            (unopened.len(0), unopened.len(1), unopened.faults),
            (Ok(8), Err(Failed), 1)
        );
        Ok(())
    }

    #[test]
    fn a_disk_of_real_files_keeps_what_is_written(rt: HostRuntime) -> Result<(), Fail> {
        let folder = new_folder(&rt, "file_disk")?;
        let used = uses(&rt, &rt, folder.as_path());
        let removed = fs::remove_dir_all(&rt, folder.as_path());
        used?;
        removed?;
        Ok(())
    }
}
