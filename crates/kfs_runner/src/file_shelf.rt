// A file as a shelf. It tells no bytes.
ghost use Rattle.std.specs.Prelude.{None, ◌≡◌, IfOk};
ghost use Rattle.kv_base.specs.Counts.{one_more};
ghost use Rattle.kfs_runner.specs.declared.outside.OutsideFault.TheVariants.{Failed};

use crate::outside::{OutsideFault, Shelf};
use kv_base::Memory;
use std::alloc::Global;
use std::rt::Files;
use std::{fs, io};

// The path of a file, and that of the file beside it which a put writes first.
#[derive(Drop)]
struct Paths {
    image: String,
    beside: String,
}

/// The file at a path. A put writes a file beside it and renames that over it, so that a put which
/// fails leaves the old file.
#[derive(Drop)]
pub struct FileShelf<'a, R: Files> {
    files: &'a R,
    paths: Option<Paths>,
    faults: u64,
}

impl<'a, R: Files + AllocGlobal> FileShelf<'a, R> {
    /// The file at a path. Where the path isn't UTF-8, each call fails.
    pub fn new(files: &'a R, path: &[u8]) -> Result<FileShelf<'a, R>, Memory>
        ensures { IfOk result (λ s. (⟦<FileShelf<'a, R> as Shelf>⟧.side s).faults ≡ 0) }
    {
        let paths = match std::str::from_utf8(path) {
            Ok(path) => Some(paths_of(files.alloc(), path)?),
            Err(_) => None,
        };
        Ok(FileShelf {
            files,
            paths,
            faults: 0,
        })
    }

    fn read_file(&self) -> io::Result<Vec<u8>> {
        match &self.paths {
            Some(paths) => fs::read(self.files, paths.image.as_str()),
            None => Err(no_path()),
        }
    }

    fn write_file(&self, bytes: &[u8]) -> io::Result<()> {
        let Some(paths) = &self.paths else {
            return Err(no_path());
        };
        let beside = paths.beside.as_str();
        let put = match fs::write(self.files, beside, bytes) {
            Ok(()) => fs::rename(self.files, beside, paths.image.as_str()),
            Err(fault) => Err(fault),
        };
        if put.is_err() {
            let _ = fs::remove_file(self.files, beside);
        }
        put
    }

    // Counts a fault.
    fn fail(&mut self) -> OutsideFault
        ensures fault { result ≡ Failed }
        ensures count { self.new.faults ≡ one_more self.old.faults }
    {
        self.faults = self.faults.saturating_add(1);
        OutsideFault::Failed
    }
}

fn paths_of(alloc: Global, path: &str) -> Result<Paths, Memory> {
    Ok(Paths {
        image: String::from_str(alloc, path)?,
        beside: format!(in alloc; "{path}.new")?,
    })
}

fn no_path() -> io::Error {
    io::Error::from(io::ErrorKind::InvalidInput)
}

impl<R: Files + AllocGlobal> Shelf for FileShelf<'_, R> {
    ghost side = { λ s. record { bytes = None; faults = s.faults } };

    fn take(&mut self, _: Global) -> Result<Vec<u8>, OutsideFault> {
        match self.read_file() {
            Ok(bytes) => Ok(bytes),
            Err(_) => Err(self.fail()),
        }
    }

    fn put(&mut self, bytes: &[u8]) -> Result<(), OutsideFault> {
        match self.write_file(bytes) {
            Ok(()) => Ok(()),
            Err(_) => Err(self.fail()),
        }
    }
}
