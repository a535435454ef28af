//! A file that may be missing, as a reader.
ghost use Rattle.std.specs.Prelude.{◌≡◌, ◌≢◌, IfOk, IfErr};
ghost use Rattle.std.specs.IoError.{error_kind};

use std::io::{self, ErrorKind, Read};

/// A file to read, as its opening went. Where there is no such file nothing is read; where it can't be opened each read
/// fails.
#[derive(Drop)]
pub enum OptionalFile<R: Read> {
    /// The file.
    File(R),
    /// There is no such file.
    Missing,
    /// It can't be opened.
    Unreadable,
}

impl<R: Read> OptionalFile<R> {
    /// What this opening came to.
    pub fn of(opening: io::Result<R>) -> Self
        ensures file { IfOk opening (λ file. result ≡ OptionalFile.File file) }
        ensures missing { IfErr opening (λ error. error_kind error ≡ ErrorKind.NotFound → result ≡ OptionalFile.Missing) }
        ensures unreadable { IfErr opening (λ error. error_kind error ≢ ErrorKind.NotFound → result ≡ OptionalFile.Unreadable) }
    {
        match opening {
            Ok(file) => OptionalFile::File(file),
            Err(error) if error.kind() == ErrorKind::NotFound => OptionalFile::Missing,
            Err(_) => OptionalFile::Unreadable,
        }
    }
}

impl<R: Read> Read for OptionalFile<R> {
    ghost use Rattle.std.specs.Prelude.{◌≡◌, Ok, IsErr};
    ghost use Rattle.std.specs.Io.{ReadsAtMost};
    ghost use Rattle.std.specs.Io.KnownBytes.{ReadConsumes};
    ghost use Rattle.sq_outside.specs.OptionalFile.{bytes_of};

    ghost remaining = { bytes_of R.remaining };

    fn read(&mut self, buf: &mut [u8]) -> io::Result<usize>
        ensures bound { ReadsAtMost result buf.new }
        ensures bytes { ReadConsumes (bytes_of R.remaining self.old) (bytes_of R.remaining self.new) result buf.new }

        ensures missing { self.old ≡ OptionalFile.Missing → (self.new ≡ OptionalFile.Missing) × (result ≡ Ok 0) }
        ensures unreadable { self.old ≡ OptionalFile.Unreadable → (self.new ≡ OptionalFile.Unreadable) × IsErr result }
    {
        match self {
            OptionalFile::File(file) => file.read(buf),
            OptionalFile::Missing => Ok(0),
            OptionalFile::Unreadable => Err(io::Error::other("the file can't be opened")),
        }
    }
}

#[cfg(test)]
mod tests {
    use super::*;
    use crate::host::test_folder::new_folder;
    use crate::{Failed, Source, StreamSource};
    use std::fs;
    use std::path::Path;
    use std::process::Abort;
    use std::rt::Files;
    use std::test::Fail;

    // What the first read of the file at this path answers, and what it leaves in the buffer.
    fn first_read<R: Files>(rt: &R, path: Path<'_>) -> (Result<usize, Failed>, [u8; 4]) {
        let mut source = StreamSource::new(OptionalFile::of(fs::open(rt, path)));
        let mut buf = *b"....";
        let answer = source.read(&mut buf);
        (answer, buf)
    }

    fn reads<R: Files + AllocGlobal + Abort>(rt: &R, folder: Path<'_>) -> Result<(), Fail> {
        fs::write(rt, folder.join(rt.alloc(), "plain")?.as_path(), "abc")?;
        for (name, expected) in [
            ("plain", (Ok(3), *b"abc.")),
            ("missing", (Ok(0), *b"....")),
            ("plain/below", (Err(Failed), *b"....")),
        ] {
            let path = folder.join(rt.alloc(), name)?;
            assert_eq!(rt; first_read(rt, path.as_path()), expected, "at {name}");
        }
        Ok(())
    }

    #[test]
    fn a_missing_file_reads_as_empty_and_an_unreadable_one_fails(
        rt: HostRuntime,
    ) -> Result<(), Fail> {
        let folder = new_folder(&rt, "optional_file")?;
        let read = reads(&rt, folder.as_path());
        let removed = fs::remove_dir_all(&rt, folder.as_path());
        read?;
        removed?;
        Ok(())
    }
}
