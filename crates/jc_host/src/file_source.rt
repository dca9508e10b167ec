//! Packages in folders, and certificates in files.

ghost use Rattle.std.specs.Prelude.{⊤, ◌≡◌, ◌+◌, ◌<◌, ◌^◌, IfOk, IfErr};
ghost use Rattle.jc_source.specs.Source.{Asked, OfFailed, failures_of, shortages_of};
ghost use Rattle.jc_host.specs.Files.{OfFile};
ghost use Rattle.jc_host.specs.FileSource.{HoldsCertificate, IsCertificateFault, IsFaultOf, IsKept, IsKeptOf};
ghost use Rattle.jc_host.specs.FileSource.{IsSourceFault, TellsAll};
ghost use Rattle.jc_host.specs.Folders.{IsImage};

use crate::files::{FileCause, FileFault, Files, ReadFault, fault_of};
use crate::folders::image_in;
use jc_source::{PackageSource, SourceFault};
use std::alloc::Global;
use std::marker::{Brand, Model, PhantomData};

/// The most bytes of the file of a certificate.
pub(crate) const MOST_CERTIFICATE: usize = 1048576;

/// The faults that a source may report, for each read: a name for proofs alone, which outlives the source.
pub trait Faults {
    ghost use Rattle.jc_source.specs.Source.{Asked};
    ghost use Rattle.jc_host.specs.declared.files.FileFault.{FileFault};

    ghost tells: { Asked → FileFault → Type 0 };
}

impl Faults for Brand {
    ghost tells = { λ asked fault. ⊤ };
}

/// Packages in folders of component files, and certificates in files. It counts the reads that failed, keeps the fault
/// of the last one, and counts those for which memory ran out.
#[derive(Drop)]
pub struct FileSource<'a, F: Files, T: Faults> {
    files: &'a F,
    failures: u32,
    shortages: u32,
    fault: Option<FileFault>,
    faults: PhantomData<T>,
}

impl<'a, F: Files, T: Faults> Model for FileSource<'a, F, T> {
    ghost use Rattle.jc_host.specs.FileSource.{IsKept, Readings, TellsAll};

    ghost Value = { Readings F };

    ghost view = { λ s. record {
      files = s.files.now;
      failures = s.failures;
      shortages = s.shortages;
      fault = s.fault;
    } };

    ghost invariant = { λ s. TellsAll (F.holds s.files.now) T.tells × IsKept T.tells s.failures s.fault };
}

impl<'a, F: Files, T: Faults> FileSource<'a, F, T> {
    /// A source that reads these files. No read failed yet.
    pub fn new(files: &'a F) -> FileSource<'a, F, T>
        requires { TellsAll (F.holds files.now) T.tells }
        ensures files { result.files ≡ files.now }
        ensures failures { result.failures ≡ 0 }
        ensures shortages { result.shortages ≡ 0 }
    {
        FileSource {
            files,
            failures: 0,
            shortages: 0,
            fault: None,
            faults: PhantomData,
        }
    }

    /// The fault of the last read that failed, if one did.
    pub fn into_fault(self) -> Option<FileFault>
        ensures kept { IsKept T.tells self.entry.failures result }
        ensures fault { result ≡ self.entry.fault }
    {
        self.fault
    }

    /// The same, without ending the source.
    pub fn fault(&self) -> Option<&FileFault> {
        self.fault.as_ref()
    }

    // Counts a read, keeps its fault if it failed, and returns the fault's kind.
    fn fail(&mut self, fault: ReadFault) -> SourceFault
        requires few { self.old.failures < 2 ^ 31 }
        requires few_short { self.old.shortages < 2 ^ 31 }
        requires fault { OfFile (IsSourceFault (F.holds self.old.files)) fault }
        ensures files { self.new.files ≡ self.old.files }
        ensures counted { self.new.failures ≡ self.old.failures + failures_of result }
        ensures counted_short { self.new.shortages ≡ self.old.shortages + shortages_of result }
        ensures failing { (asked : Asked) → OfFile (IsFaultOf (F.holds self.old.files) asked) fault
            → OfFailed result (IsKeptOf T.tells self.new.fault asked) }
    {
        match fault {
            ReadFault::File(fault) => {
                self.failures += 1;
                self.fault = Some(fault);
                SourceFault::Failed
            }
            ReadFault::Memory => {
                self.shortages += 1;
                SourceFault::Memory
            }
        }
    }
}

impl<'a, F: Files, T: Faults> PackageSource for FileSource<'a, F, T> {
    ghost failed = { λ s. s.failures };

    ghost short = { λ s. s.shortages };

    ghost holds_image = { λ s. IsImage (F.holds s.files) };

    ghost holds_certificate = { λ s. HoldsCertificate (F.holds s.files) };

    ghost failed_at = { λ s. IsKeptOf T.tells s.fault };

    fn image(&mut self, alloc: Global, name: &str) -> Result<Vec<u8>, SourceFault> {
        match image_in(self.files, alloc, name) {
            Ok(image) => Ok(image),
            Err(fault) => Err(self.fail(fault)),
        }
    }

    fn certificate(&mut self, alloc: Global, name: &str) -> Result<Vec<u8>, SourceFault> {
        match certificate_in(self.files, alloc, name) {
            Ok(certificate) => Ok(certificate),
            Err(fault) => Err(self.fail(fault)),
        }
    }

    fn failures(&self) -> u32 {
        self.failures
    }

    fn shortages(&self) -> u32 {
        self.shortages
    }
}

// The certificate in a file.
fn certificate_in<F: Files>(files: &F, alloc: Global, name: &str) -> Result<Vec<u8>, ReadFault>
    ensures certificate { IfOk result (λ bytes. HoldsCertificate (F.holds files.now) name.now bytes.items) }
    ensures faults { IfErr result (OfFile (IsCertificateFault (F.holds files.now) name.now)) }
{
    match files.is_regular(name) {
        Ok(true) => read_certificate(files, alloc, name),
        Ok(false) => Err(fault_of(alloc, name, FileCause::NotRegular)),
        Err(error) => Err(fault_of(alloc, name, FileCause::System(error))),
    }
}

// The bytes of a regular file.
fn read_certificate<F: Files>(files: &F, alloc: Global, name: &str) -> Result<Vec<u8>, ReadFault>
    ensures certificate { IfOk result (λ bytes. HoldsCertificate (F.holds files.now) name.now bytes.items) }
    ensures faults { IfErr result (OfFile (IsCertificateFault (F.holds files.now) name.now)) }
{
    match files.read(alloc, name, MOST_CERTIFICATE) {
        Ok(bytes) => Ok(bytes),
        Err(cause) => Err(fault_of(alloc, name, cause)),
    }
}
