//! The files of the system on which the program runs.

ghost use Rattle.std.specs.Prelude.{⊤, ◌≡◌, ◌≤◌, length, IfOk, IfErr};

use crate::files::{FileCause, Files, Scripts};
use std::alloc::Global;
use std::fs::File;
use std::io::{Read, Write};
use std::{fs, io};

/// The system's files. The contracts state nothing of what is at their paths, nor of what was written.
#[derive(Drop)]
pub struct HostFiles<'a> {
    rt: &'a HostRuntime,
}

impl<'a> HostFiles<'a> {
    pub fn new(rt: &'a HostRuntime) -> HostFiles<'a> {
        HostFiles { rt }
    }
}

impl<'a> Files for HostFiles<'a> {
    ghost holds = { λ s path entry. ⊤ };

    ghost has_written = { λ s written. ⊤ };

    fn is_folder(&self, path: &str) -> io::Result<bool> {
        Ok(fs::metadata(self.rt, path)?.is_dir())
    }

    fn is_regular(&self, path: &str) -> io::Result<bool> {
        Ok(fs::metadata(self.rt, path)?.is_file())
    }

    fn read(&self, alloc: Global, path: &str, most: usize) -> Result<Vec<u8>, FileCause> {
        let bytes = read_within(self.rt, alloc, path, most).map_err(FileCause::System)?;
        if bytes.len() > most {
            return Err(FileCause::TooLong(most));
        }
        Ok(bytes)
    }

    fn write(&mut self, path: &str, bytes: &[u8]) -> io::Result<()> {
        created(self.rt, path)?.write_all(bytes)
    }
}

/// The system's files, opened as scripts. The contracts state nothing of them, nor of which were opened.
#[derive(Drop)]
pub struct HostScripts<'a> {
    rt: &'a HostRuntime,
}

impl<'a> HostScripts<'a> {
    pub fn new(rt: &'a HostRuntime) -> HostScripts<'a> {
        HostScripts { rt }
    }
}

impl<'a> Scripts for HostScripts<'a> {
    type Reader = File;

    ghost tells = { λ s path opening. ⊤ };

    ghost has_asked = { λ s paths. ⊤ };

    fn open(&mut self, path: &str) -> io::Result<File> {
        opened(self.rt, path)
    }
}

/// The most times that an interrupted call is repeated.
const MOST_TRIES: u32 = 16_777_216;

/// Whether a call was interrupted by a signal, so it has to be repeated.
fn is_interrupted<T>(called: &io::Result<T>) -> bool {
    match called {
        Ok(_) => false,
        Err(error) => error.kind() == io::ErrorKind::Interrupted,
    }
}

// Opens a file for reading.
fn opened(rt: &HostRuntime, path: &str) -> io::Result<File> {
    for _ in 0..MOST_TRIES {
        let file = File::open(rt, path);
        if !is_interrupted(&file) {
            return file;
        }
    }
    Err(io::Error::from(io::ErrorKind::Interrupted))
}

// Creates a file, or empties an existing one.
fn created(rt: &HostRuntime, path: &str) -> io::Result<File> {
    for _ in 0..MOST_TRIES {
        let file = File::create(rt, path);
        if !is_interrupted(&file) {
            return file;
        }
    }
    Err(io::Error::from(io::ErrorKind::Interrupted))
}

// The bytes of a file, but at most one beyond a limit.
fn read_within(rt: &HostRuntime, alloc: Global, path: &str, most: usize) -> io::Result<Vec<u8>> {
    let file = opened(rt, path)?;
    let mut bytes = Vec::new(alloc);
    file.take((most as u64).saturating_add(1))
        .read_to_end(&mut bytes)?;
    Ok(bytes)
}
