//! The files of a system for the program, and the faults of reading and writing them.

ghost use Rattle.std.specs.Prelude.{◌≡◌, ◌↔◌, ℕ, true, false, [], ◌∷◌, List, IfOk, IfErr};
ghost use Rattle.jc_host.specs.Files.{Entry, IsContent, IsFaultAt, IsFile, IsIrregular, IsOutOfMemory, IsUnread};
ghost use Rattle.jc_host.specs.Files.{IsWritten, OfFile, WritesAlone, Written};
ghost use Rattle.jc_host.specs.Files.Entry.{failing, folder};
ghost use Rattle.jc_host.specs.Scripts.{AreAsked, IsUnopened, Opening};
ghost use Rattle.jc_host.specs.Scripts.Opening.{readable, refused};

use crate::shown::ShownName;
use jc_api::BindingFault;
use std::alloc::{AllocError, AllocFailed, Global};
use std::io::Read;
use std::{fmt, io};

/// The cause of a file's fault.
#[derive(Debug, Drop)]
pub enum FileCause {
    /// The system reports an error.
    System(io::Error),
    /// It should be a folder, and isn't.
    NoFolder,
    /// It should be a regular file, and isn't.
    NotRegular,
    /// It has more bytes than allowed.
    TooLong(usize),
    /// It should be text in UTF-8, and isn't.
    NotText,
    /// Its text is no binding.
    NoBinding(BindingFault),
    /// It is neither empty nor a certificate, and a certificate was to be written there.
    NoCertificate,
    /// The certificate that was to be written there has more bytes than allowed.
    LongCertificate(usize),
}

impl fmt::Display for FileCause {
    ghost use Rattle.jc_host.specs.Files.{cause_text};

    ghost output = { cause_text };

    fn fmt<W: fmt::Write>(&self, f: &mut fmt::Formatter<W>) -> fmt::Result {
        match self {
            FileCause::System(error) => write!(f, "{error}"),
            FileCause::NoFolder => {
                write!(f, "it isn't a folder; tools/uncap makes one of a CAP file")
            }
            FileCause::NotRegular => write!(f, "it isn't a regular file"),
            FileCause::TooLong(most) => write!(f, "it has more than {most} bytes"),
            FileCause::NotText => write!(f, "it isn't UTF-8"),
            FileCause::NoBinding(fault) => write!(f, "it is no binding: {fault}"),
            FileCause::NoCertificate => write!(f, "it is no certificate, and stays as it is"),
            FileCause::LongCertificate(most) => write!(
                f,
                "the certificate has more than {most} bytes, and isn't written"
            ),
        }
    }
}

/// A file or folder, by its path, and the cause of its fault.
#[derive(Debug, Drop)]
pub struct FileFault {
    pub name: String,
    pub cause: FileCause,
}

impl fmt::Display for FileFault {
    ghost use Rattle.jc_host.specs.Files.{file_line};

    ghost output = { file_line };

    fn fmt<W: fmt::Write>(&self, f: &mut fmt::Formatter<W>) -> fmt::Result {
        write!(
            f,
            "{}: {}",
            ShownName {
                name: self.name.as_str()
            },
            self.cause
        )
    }
}

/// Why files aren't read or written.
#[derive(Debug, Drop)]
pub enum ReadFault {
    /// A file is at fault.
    File(FileFault),
    /// No memory was left.
    Memory,
}

impl From<AllocError> for ReadFault {
    ghost use Rattle.jc_host.specs.declared.files.ReadFault.TheVariants.{Memory};

    ghost from_gives = { λ _ fault. fault ≡ Memory };

    fn from(_error: AllocError) -> ReadFault {
        ReadFault::Memory
    }
}

impl<T: Drop> From<AllocFailed<T>> for ReadFault {
    ghost use Rattle.jc_host.specs.declared.files.ReadFault.TheVariants.{Memory};

    ghost from_gives = { λ _ fault. fault ≡ Memory };

    fn from(_failed: AllocFailed<T>) -> ReadFault {
        ReadFault::Memory
    }
}

/// The files of a system. Reading changes nothing.
pub trait Files {
    // What the system reports for a path: what is there, or an error if it is looked up, read or written.
    ghost holds: { Self → List ℕ → Entry → Type 0 };

    // The files that were written, in order.
    ghost has_written: { Self → List Written → Type 0 };

    /// Whether there is a folder at a path.
    fn is_folder(&self, path: &str) -> io::Result<bool>
        ensures folder { result ≡ Ok true → holds self.now path.now folder }
        ensures file { result ≡ Ok false → IsFile (holds self.now path.now) }
        ensures failing { IfErr result (λ error. holds self.now path.now (failing error)) };

    /// Whether there is a regular file at a path. Reading anything else may never end.
    fn is_regular(&self, path: &str) -> io::Result<bool>
        ensures irregular { result ≡ Ok false → IsIrregular (holds self.now path.now) }
        ensures failing { IfErr result (λ error. holds self.now path.now (failing error)) };

    /// All bytes of the file at a path, at most `most`.
    fn read(&self, alloc: Global, path: &str, most: usize) -> Result<Vec<u8>, FileCause>
        ensures read { IfOk result (λ bytes. IsContent (holds self.now path.now) most bytes.items) }
        ensures unread { IfErr result (IsUnread (holds self.now path.now) most) };

    /// Writes all of these bytes to the file at a path, and nothing else. If it fails, it may have written the first of
    /// them, and to no other file.
    fn write(&mut self, path: &str, bytes: &[u8]) -> io::Result<()>
        ensures written { IfOk result
            (λ u. IsWritten (has_written self.old) (has_written self.new)
            (record { path = path.now; bytes = bytes.now } ∷ [])) }
        ensures alone { WritesAlone (has_written self.old) (has_written self.new) path.now }
        ensures failing { IfErr result (λ error. holds self.old path.now (failing error)) };
}

/// The files of scripts, which are opened for playing.
pub trait Scripts {
    /// The reader of a script.
    type Reader: Read + Drop;

    // What the system reports when the script at a path is opened: its bytes, or an error.
    ghost tells: { Self → List ℕ → Opening → Type 0 };

    // The scripts that were to be opened, by their paths, in order.
    ghost has_asked: { Self → List (List ℕ) → Type 0 };

    /// Opens the script at a path.
    fn open(&mut self, path: &str) -> io::Result<Self::Reader>
        ensures opened { IfOk result
            (λ reader. tells self.old path.now (readable (Self.Reader.remaining reader))) }
        ensures refused { IfErr result (λ error. tells self.old path.now (refused error)) }
        ensures asked { AreAsked (has_asked self.old) (has_asked self.new) (path.now ∷ []) };
}

/// Whether the system reports that it is out of memory.
fn is_memory(cause: &FileCause) -> bool
    ensures { (result ≡ true) ↔ IsOutOfMemory cause.now }
{
    match cause {
        FileCause::System(error) => error.kind() == io::ErrorKind::OutOfMemory,
        FileCause::NoFolder
        | FileCause::NotRegular
        | FileCause::TooLong(_)
        | FileCause::NotText
        | FileCause::NoBinding(_)
        | FileCause::NoCertificate
        | FileCause::LongCertificate(_) => false,
    }
}

/// The fault of the file at a path, or out of memory if that is the cause.
pub fn fault_of(alloc: Global, path: &str, cause: FileCause) -> ReadFault
    ensures { OfFile (IsFaultAt path.now (λ told. told ≡ cause)) result }
{
    if is_memory(&cause) {
        return ReadFault::Memory;
    }
    match String::from_str(alloc, path) {
        Ok(name) => ReadFault::File(FileFault { name, cause }),
        Err(_) => ReadFault::Memory,
    }
}

/// Opens the script at a path.
pub fn open_script<S: Scripts>(
    scripts: &mut S,
    alloc: Global,
    path: &str,
) -> Result<S::Reader, ReadFault>
    ensures opened { IfOk result
        (λ reader. S.tells scripts.old path.now (readable (S.Reader.remaining reader))) }
    ensures faults { IfErr result (OfFile (IsFaultAt path.now (IsUnopened (S.tells scripts.old path.now)))) }
    ensures asked { AreAsked (S.has_asked scripts.old) (S.has_asked scripts.new) (path.now ∷ []) }
{
    match scripts.open(path) {
        Ok(reader) => Ok(reader),
        Err(error) => Err(fault_of(alloc, path, FileCause::System(error))),
    }
}
