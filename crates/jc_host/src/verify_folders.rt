//! Verification of packages in folders.

ghost use Rattle.std.specs.Prelude.{◌≡◌, ◌≤◌, ◌∷◌, [], length, true, false, IfOk, IfErr};
ghost use Rattle.jc_host.specs.Files.{IsFaultAt, IsFile, IsUnwritten, IsWritten, OfFile, WritesAlone, most_certificate};
ghost use Rattle.jc_host.specs.PrivateVerify.{MayBeLost};
ghost use Rattle.jc_host.specs.Saying.{IsSaidOfJob, IsSaidOfWork, may_be_written};
ghost use Rattle.jc_host.specs.Verify.{IsAnswerOf, IsDone, IsInTheWay, IsReplaceable, IsShort, IsUndone, IsUnreadOf};
ghost use Rattle.jc_host.specs.Verify.{IsUnwrittenOf, written_of};

use crate::binding::binding_for;
use crate::file_source::MOST_CERTIFICATE;
use crate::files::{FileCause, Files, ReadFault, fault_of};
use crate::folders::{image_in, images_in};
use crate::job::VerifyJob;
use crate::saying::{Message, Said, may_be_written, said_of_files, said_of_verified};
use crate::shown::ShownName;
use jc_api::Binding;
use jc_base::{Aid, LoadFault, cut};
use jc_cap::read_header;
use jc_cert::read;
use jc_offcard::{VerifyAnswer, verify};
use jc_script::Hexadecimal;
use std::alloc::{AllocError, Global};
use std::fmt;
use std::io::ErrorKind;

/// The message for a package. If the package gets a certificate, it is written first, and only if its path has nothing,
/// an empty file, or a certificate. In any case no other file is written.
pub fn said_of_job<F: Files>(files: &mut F, alloc: Global, job: &VerifyJob) -> Said
    ensures said { IsSaidOfJob (F.holds files.old) (IsWritten (F.has_written files.old) (F.has_written files.new))
        job.now result }
    ensures alone { WritesAlone (F.has_written files.old) (F.has_written files.new) job.now.cert.now }
{
    match look_for_place(&*files, alloc, job.cert) {
        Ok(()) => said_of_work(files, alloc, job),
        Err(fault) => said_of_files(fault),
    }
}

/// The folder whose package is refused, of several, and the package's AID, if it can be read. Its `Display` prints a
/// line of standard error.
#[derive(Drop)]
pub struct RefusedFolder<'a> {
    folder: &'a str,
    aid: Option<Aid>,
}

impl<'a> fmt::Display for RefusedFolder<'a> {
    fn fmt<W: fmt::Write>(&self, f: &mut fmt::Formatter<W>) -> fmt::Result {
        write!(f, "{}: ", ShownName { name: self.folder })?;
        match self.aid {
            Some(aid) => write!(
                f,
                "package {} is refused",
                Hexadecimal {
                    bytes: aid.as_slice()
                }
            ),
            None => write!(f, "its package is refused"),
        }
    }
}

// The AID of the package in an image.
fn aid_in(image: &[u8]) -> Option<Aid> {
    let parts = cut(image).ok()?;
    Some(read_header(&parts).ok()?.package().aid)
}

// Whether a package is refused after others.
fn is_refused(alloc: Global, image: &[u8], earlier: &[Vec<u8>], binding: &Binding) -> bool {
    match verify(alloc, image, earlier, binding) {
        VerifyAnswer::Refused(_) => true,
        VerifyAnswer::Certificate(_) | VerifyAnswer::NoCertificate { .. } | VerifyAnswer::Memory =>
            { false }
    }
}

// The first of a job's earlier folders whose package is refused, or the package's own.
fn first_refused<'a, F: Files>(
    files: &F,
    alloc: Global,
    job: &VerifyJob<'a>,
) -> Option<RefusedFolder<'a>> {
    let binding = binding_for(files, alloc, job.binding).ok()?;
    let images = images_in(files, alloc, &job.earlier).ok()?;
    for at in 0..images.len().min(job.earlier.len()) {
        if is_refused(alloc, &images[at], &images[..at], &binding) {
            return Some(RefusedFolder {
                folder: job.earlier[at],
                aid: aid_in(&images[at]),
            });
        }
    }
    let image = image_in(files, alloc, job.folder).ok()?;
    Some(RefusedFolder {
        folder: job.folder,
        aid: aid_in(&image),
    })
}

/// The folder whose package is refused, if the message reports a refusal and the job names several folders. It reads
/// the files again.
pub fn refused_folder<'a, F: Files>(
    files: &F,
    alloc: Global,
    job: &VerifyJob<'a>,
    said: &Said,
) -> Option<RefusedFolder<'a>> {
    match &said.message {
        Message::Verified(VerifyAnswer::Refused(_)) if !job.earlier.is_empty() => {
            first_refused(files, alloc, job)
        }
        _ => None,
    }
}

// Whether there are no bytes, or they are a certificate.
fn may_be_lost(alloc: Global, bytes: &[u8]) -> Result<bool, AllocError>
    ensures { IfOk result (λ lost. MayBeLost bytes.now lost) }
{
    if bytes.is_empty() {
        return Ok(true);
    }
    match read(alloc, bytes) {
        Ok(_) => Ok(true),
        Err(LoadFault::BadCertificate) => Ok(false),
        Err(_) => Err(AllocError),
    }
}

// Tests that the regular file at a path may be overwritten.
fn look_at_content<F: Files>(files: &F, alloc: Global, path: &str) -> Result<(), ReadFault>
    ensures place { IfOk result (λ u. IsReplaceable (F.holds files.now path.now)) }
    ensures faults { IfErr result (OfFile (IsFaultAt path.now (IsInTheWay (F.holds files.now path.now)))) }
{
    let bytes = match files.read(alloc, path, MOST_CERTIFICATE) {
        Ok(bytes) => bytes,
        Err(cause) => return Err(fault_of(alloc, path, cause)),
    };
    if may_be_lost(alloc, &bytes)? {
        Ok(())
    } else {
        Err(fault_of(alloc, path, FileCause::NoCertificate))
    }
}

// Tests that a certificate may be written to a path.
fn look_for_place<F: Files>(files: &F, alloc: Global, path: &str) -> Result<(), ReadFault>
    ensures place { IfOk result (λ u. IsReplaceable (F.holds files.now path.now)) }
    ensures faults { IfErr result (OfFile (IsFaultAt path.now (IsInTheWay (F.holds files.now path.now)))) }
{
    match files.is_regular(path) {
        Ok(true) => look_at_content(files, alloc, path),
        Ok(false) => Err(fault_of(alloc, path, FileCause::NotRegular)),
        Err(error) if error.kind() == ErrorKind::NotFound => Ok(()),
        Err(error) => Err(fault_of(alloc, path, FileCause::System(error))),
    }
}

// The message for a package, if its certificate may be written.
fn said_of_work<F: Files>(files: &mut F, alloc: Global, job: &VerifyJob) -> Said
    ensures said { IsSaidOfWork (F.holds files.old) (IsWritten (F.has_written files.old) (F.has_written files.new))
        job.now result }
    ensures alone { WritesAlone (F.has_written files.old) (F.has_written files.new) job.now.cert.now }
{
    match answer_to(files, alloc, job) {
        Ok(answer) => said_of_verified(job.strict, answer),
        Err(fault) => said_of_files(fault),
    }
}

/// Whether a file that existed before stays at the certificate's path: nothing can have been written to it.
pub fn older_stays<F: Files>(files: &F, job: &VerifyJob, said: &Said) -> bool
    ensures unwritten { result ≡ true → may_be_written job.now.cert.now said.now.message ≡ false }
    ensures there { result ≡ true → IsFile (F.holds files.now job.now.cert.now) }
{
    if may_be_written(job.cert, &said.message) {
        return false;
    }
    match files.is_folder(job.cert) {
        Ok(is_folder) => !is_folder,
        Err(_) => false,
    }
}

// The answer to a package; its certificate is written.
fn answer_to<F: Files>(
    files: &mut F,
    alloc: Global,
    job: &VerifyJob,
) -> Result<VerifyAnswer, ReadFault>
    ensures done { IfOk result
        (IsDone (F.holds files.old) (IsWritten (F.has_written files.old) (F.has_written files.new)) job.now) }
    ensures faults { IfErr result
        (OfFile (IsUndone (F.holds files.old) (IsWritten (F.has_written files.old) (F.has_written files.new))
        job.now)) }
    ensures alone { WritesAlone (F.has_written files.old) (F.has_written files.new) job.now.cert.now }
{
    let answer = worked_out(&*files, alloc, job)?;
    write_answer(files, alloc, job.cert, &answer)?;
    Ok(answer)
}

// The answer to a package. All files are read before any package is linked: the binding, the earlier folders in order,
// the package's folder.
fn worked_out<F: Files>(
    files: &F,
    alloc: Global,
    job: &VerifyJob,
) -> Result<VerifyAnswer, ReadFault>
    ensures answered { IfOk result (IsAnswerOf (F.holds files.now) job.now) }
    ensures faults { IfErr result (OfFile (IsUnreadOf (F.holds files.now) job.now)) }
{
    let binding = binding_for(files, alloc, job.binding)?;
    let earlier = images_in(files, alloc, &job.earlier)?;
    let image = image_in(files, alloc, job.folder)?;
    Ok(verify(alloc, &image, &earlier, &binding))
}

// Writes the bytes of a certificate, unless they are more than can be read again.
fn write_certificate<F: Files>(
    files: &mut F,
    alloc: Global,
    path: &str,
    bytes: &[u8],
) -> Result<(), ReadFault>
    ensures written { IfOk result
        (λ u. IsWritten (F.has_written files.old) (F.has_written files.new)
        (record { path = path.now; bytes = bytes.now } ∷ [])) }
    ensures short { IfOk result (λ u. length bytes.now ≤ most_certificate) }
    ensures faults { IfErr result (OfFile (IsFaultAt path.now (IsUnwritten (F.holds files.old path.now) bytes.now))) }
    ensures alone { WritesAlone (F.has_written files.old) (F.has_written files.new) path.now }
{
    if bytes.len() > MOST_CERTIFICATE {
        let cause = FileCause::LongCertificate(MOST_CERTIFICATE);
        return Err(fault_of(alloc, path, cause));
    }
    match files.write(path, bytes) {
        Ok(()) => Ok(()),
        Err(error) => Err(fault_of(alloc, path, FileCause::System(error))),
    }
}

// Writes the certificate of an answer, if it has one.
fn write_answer<F: Files>(
    files: &mut F,
    alloc: Global,
    path: &str,
    answer: &VerifyAnswer,
) -> Result<(), ReadFault>
    ensures written { IfOk result
        (λ u. IsWritten (F.has_written files.old) (F.has_written files.new) (written_of path.now answer.now)) }
    ensures short { IfOk result (λ u. IsShort answer.now) }
    ensures faults { IfErr result (OfFile (IsUnwrittenOf (F.holds files.old) path.now answer.now)) }
    ensures alone { WritesAlone (F.has_written files.old) (F.has_written files.new) path.now }
{
    match answer {
        VerifyAnswer::Certificate(bytes) => write_certificate(files, alloc, path, bytes),
        VerifyAnswer::NoCertificate { .. } | VerifyAnswer::Refused(_) | VerifyAnswer::Memory => {
            Ok(())
        }
    }
}
