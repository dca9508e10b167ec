//! Packages and certificates in memory.

ghost use Rattle.std.specs.Prelude.{◌≡◌, Some, IfOk, IfErr, bytes_eq, find};
ghost use Rattle.std.specs.Option.{option_map};
ghost use Rattle.jc_memory.specs.Memory.{Holds, IsMissing, IsUnread, unread_store};

use crate::reads::{NamedRead, Reads};
use jc_source::{PackageSource, SourceFault, failures_in, shortages_in};
use std::alloc::Global;
use std::marker::Model;

/// Bytes under a name: the image of a package, or a certificate.
#[derive(Drop)]
pub struct NamedBytes {
    pub name: String,
    pub bytes: Vec<u8>,
}

impl Model for NamedBytes {
    ghost use Rattle.std.specs.Prelude.{string_bytes};
    ghost use Rattle.jc_memory.specs.Memory.{Stored};

    ghost Value = { Stored };

    ghost view = { λ e. record { name = string_bytes e.name; bytes = e.bytes.items } };
}

/// A source of images and certificates in memory. Of several under one name the first counts. It counts the reads of
/// names that aren't there, and those for which memory ran out.
#[derive(Drop)]
pub struct MemorySource<'a> {
    images: &'a [NamedBytes],
    certificates: &'a [NamedBytes],
    failures: u32,
    shortages: u32,
    reads: Reads,
}

impl<'a> Model for MemorySource<'a> {
    ghost use Rattle.jc_memory.specs.Memory.{Store};

    ghost Value = { Store };

    ghost view = { λ s. record {
      images = s.images.now;
      certificates = s.certificates.now;
      failures = s.failures;
      shortages = s.shortages;
      asked = s.reads.asked;
    } };
}

impl<'a> MemorySource<'a> {
    /// A source of these images and certificates, of which nothing was read.
    pub fn new(images: &'a [NamedBytes], certificates: &'a [NamedBytes]) -> MemorySource<'a>
        ensures { result ≡ unread_store images.now certificates.now }
    {
        MemorySource {
            images,
            certificates,
            failures: 0,
            shortages: 0,
            reads: Reads::new(),
        }
    }
}

// The first bytes under a name.
fn entry_under<'e>(entries: &'e [NamedBytes], name: &str) -> Option<&'e NamedBytes>
    ensures { option_map (λ entry. entry.now) result ≡ find (λ entry. bytes_eq entry.name name.now) entries.now }
{
    entries.iter().find(|entry| entry.name.as_str() == name)
}

// The bytes under a name.
fn copied(alloc: Global, entries: &[NamedBytes], name: &str) -> Result<Vec<u8>, SourceFault>
    ensures held { IfOk result (λ bytes. Holds entries.now name.now bytes.items) }
    ensures unread { IfErr result (IsUnread entries.now name.now) }
{
    match entry_under(entries, name) {
        Some(entry) => Vec::from_slice(alloc, &entry.bytes).map_err(|_| SourceFault::Memory),
        None => Err(SourceFault::Failed),
    }
}

impl<'a> PackageSource for MemorySource<'a> {
    ghost failed = { λ s. s.failures };

    ghost short = { λ s. s.shortages };

    ghost holds_image = { λ s. Holds s.images };

    ghost holds_certificate = { λ s. Holds s.certificates };

    ghost asked = { λ s. Some s.asked };

    ghost failed_at = { λ s. IsMissing s.images s.certificates };

    fn image(&mut self, alloc: Global, name: &str) -> Result<Vec<u8>, SourceFault> {
        self.reads = self.reads.then(&NamedRead::Image(name));
        let read = copied(alloc, self.images, name);
        self.failures += failures_in(&read);
        self.shortages += shortages_in(&read);
        read
    }

    fn certificate(&mut self, alloc: Global, name: &str) -> Result<Vec<u8>, SourceFault> {
        self.reads = self.reads.then(&NamedRead::Certificate(name));
        let read = copied(alloc, self.certificates, name);
        self.failures += failures_in(&read);
        self.shortages += shortages_in(&read);
        read
    }

    fn failures(&self) -> u32 {
        self.failures
    }

    fn shortages(&self) -> u32 {
        self.shortages
    }
}
