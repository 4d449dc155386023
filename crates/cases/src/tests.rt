// `answer` on a runtime of the tests' own, and into a writer that takes all and cannot hand it out.
use super::*;
use std::alloc::Allocator;
use std::env::FillError;
use std::fs::{File, Metadata, OpenOptions};
use std::io::{BufRead, ErrorKind, Lines};
use std::test::Fail;

// So many case folders among the arguments, and packed cases on standard input. There is no file.
#[derive(Drop)]
struct Given {
    folders: usize,
    packed: &'static [u8],
}

fn unsupported() -> io::Error {
    io::Error::from(ErrorKind::Unsupported)
}

impl Env for Given {
    fn arg(&self, i: usize, buf: &mut [u8]) -> Result<usize, FillError> {
        if self.folders < i {
            return Err(FillError::NotPresent);
        }
        let Some(first) = buf.first_mut() else {
            return Err(FillError::TooLong);
        };
        *first = b'x';
        Ok(1)
    }

    fn var(&self, _name: &str, _buf: &mut [u8]) -> Result<usize, FillError> {
        Err(FillError::NotPresent)
    }

    fn var_at(&self, _i: usize, _buf: &mut [u8]) -> Result<usize, FillError> {
        Err(FillError::NotPresent)
    }
}

impl Files for Given {
    type File = File;

    type Dir = &'static [u8];

    fn open_file(&self, _how: &OpenOptions, _path: &str) -> io::Result<File> {
        Err(unsupported())
    }

    fn open_dir(&self, _path: &str) -> io::Result<&'static [u8]> {
        Err(unsupported())
    }

    fn metadata(&self, _path: &str) -> io::Result<Metadata> {
        Err(unsupported())
    }

    fn symlink_metadata(&self, _path: &str) -> io::Result<Metadata> {
        Err(unsupported())
    }

    fn copy(&self, _from: &str, _to: &str) -> io::Result<u64> {
        Err(unsupported())
    }

    fn rename(&self, _from: &str, _to: &str) -> io::Result<()> {
        Err(unsupported())
    }

    fn remove_file(&self, _path: &str) -> io::Result<()> {
        Err(unsupported())
    }

    fn create_dir(&self, _path: &str) -> io::Result<()> {
        Err(unsupported())
    }

    fn remove_dir(&self, _path: &str) -> io::Result<()> {
        Err(unsupported())
    }

    fn remove_dir_all<B: Allocator>(&self, _alloc: B, _path: &str) -> io::Result<()> {
        Err(unsupported())
    }
}

impl Input for Given {
    type Reader = &'static [u8];

    fn read_line<A: Allocator + Clone>(&self, _buf: &mut String<A>) -> io::Result<usize> {
        Ok(0)
    }

    fn lines<A: Allocator>(&self, alloc: A) -> Lines<&'static [u8], A> {
        self.packed.lines(alloc)
    }

    fn reader(&self) -> &'static [u8] {
        self.packed
    }
}

// Counts what it takes.
#[derive(Drop)]
struct Unflushed(usize);

impl Write for Unflushed {
    fn write(&mut self, buf: &[u8]) -> io::Result<usize> {
        self.0 = self.0.saturating_add(buf.len());
        Ok(buf.len())
    }

    fn flush(&mut self) -> io::Result<()> {
        Err(unsupported())
    }
}

// How long the answers are.
fn answered(folders: usize, packed: &'static [u8]) -> io::Result<usize> {
    let mut out = Unflushed(0);
    answer(&Given { folders, packed }, &mut out)?;
    Ok(out.0)
}

// Two cases of empty texts are answered as one is, each.
#[test]
fn a_failed_flush_ends_nothing(rt: HostRuntime) -> Result<(), Fail> {
    let one = b"       0       0       0       0       0\n";
    let two =
        b"       0       0       0       0       0\n       0       0       0       0       0\n";
    let case = answered(0, one)?;
    assert!(rt; 0 < case);
    assert_eq!(rt; answered(0, two)?, case.saturating_mul(2));
    assert_eq!(rt; answered(1, b"")?, case);
    assert_eq!(rt; answered(2, b"")?, case.saturating_mul(2));
    Ok(())
}
