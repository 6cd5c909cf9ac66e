//! Files of the system.

ghost use Rattle.std.specs.Prelude.{◌≡◌, ◌⊎◌, ◌↔◌, ◌≢◌, ℕ, ◌+◌, ◌-◌, ◌<◌, ◌≤◌, List, [], length, IfOk, IfErr, OnOk, OnErr, IsErrOf, IsErrAnd};
ghost use Rattle.std.specs.Io.KnownBytes.{Consumes, IsAtEnd};
ghost use Rattle.std.specs.IoError.{error_kind};
ghost use Rattle.std.specs.declared.io.Error.{Error};
ghost use Rattle.hs_base.specs.Causes.{Rose, next_of};
ghost use Rattle.hs_base.specs.Faults.{told_of};
ghost use Rattle.hs_base.specs.Reads.{IsTold, IsAll, HasMore, ReadPast};
ghost use Rattle.hs_base.specs.Contents.{Holds, Lacks, Exceeds, untold};

use crate::outside::{FetchFault, Files};
use crate::repeats::Repeats;
use std::alloc::{AllocError, Global};
use std::fs::File;
use std::io;
use std::io::{ErrorKind, Read};

// How many bytes are asked for at once.
const CHUNK: usize = 4096;

/// Why the bytes of a file were not read.
#[derive(Debug, Drop)]
pub enum ReadFault {
    /// The system found no such file.
    NotThere,
    /// There are more bytes than the limit allows.
    TooLarge,
    /// The system failed, with this error.
    Failed(io::Error),
    /// There was no memory for the bytes.
    NoMemory,
}

impl From<io::Error> for ReadFault {
    ghost use Rattle.hs_base.specs.declared.disk.ReadFault.TheVariants.{Failed};

    ghost from_gives = { λ error fault. fault ≡ Failed error };

    fn from(error: io::Error) -> ReadFault {
        ReadFault::Failed(error)
    }
}

impl From<AllocError> for ReadFault {
    ghost use Rattle.hs_base.specs.declared.disk.ReadFault.TheVariants.{NoMemory};

    ghost from_gives = { λ _ fault. fault ≡ NoMemory };

    fn from(_error: AllocError) -> ReadFault {
        ReadFault::NoMemory
    }
}

// Reads to the end, or one byte past the limit.
fn read_within<R: Read>(
    alloc: Global,
    reader: &mut R,
    limit: u32,
    repeats: &mut Repeats,
) -> Result<Vec<u8>, ReadFault>
    ensures bytes { IfOk result (λ bytes. Consumes (R.remaining reader.old) (R.remaining reader.new) bytes.items) }
    ensures end { IfOk result (λ bytes. length bytes.items ≤ limit → IsAtEnd (R.remaining reader.new)) }
    ensures most { IfOk result (λ bytes. length bytes.items ≤ limit + 1) }
    ensures not_there { ¬ IsErrOf result ReadFault.NotThere }
    ensures too_large { ¬ IsErrOf result ReadFault.TooLarge }
    ensures failed { IfErr result (λ fault. (error : Error) → fault ≡ ReadFault.Failed error → IsTold error repeats.new) }
{
    let most = limit as usize + 1;
    let mut bytes = Vec::new(alloc);
    let mut buf = [0u8; CHUNK];
    while bytes.len() < most {
        let want = (most - bytes.len()).min(CHUNK);
        match reader.read(&mut buf[..want]) {
            Ok(0) => return Ok(bytes),
            Ok(count) => bytes.extend_from_slice(&buf[..count])?,
            Err(error) => repeats.after(error)?,
        }
    }
    Ok(bytes)
}

/// All the bytes that are left, if they are within the limit. Of more bytes one past the limit is read, and that is `TooLarge`.
///
/// An interrupted read is made again while there are repeats; a further interruption, or another error, is `Failed`.
pub fn read_all<R: Read>(
    alloc: Global,
    reader: &mut R,
    limit: u32,
    repeats: &mut Repeats,
) -> Result<Vec<u8>, ReadFault>
    ensures bytes { IfOk result (λ bytes. Consumes (R.remaining reader.old) (R.remaining reader.new) bytes.items) }
    ensures end { OnOk result (IsAtEnd (R.remaining reader.new)) }
    ensures within { IfOk result (λ bytes. length bytes.items ≤ limit) }
    ensures not_there { ¬ IsErrOf result ReadFault.NotThere }
    ensures too_large { IsErrOf result ReadFault.TooLarge → ReadPast (R.remaining reader.old) (R.remaining reader.new) limit }
    ensures failed { IfErr result (λ fault. (error : Error) → fault ≡ ReadFault.Failed error → IsTold error repeats.new) }
{
    let bytes = read_within(alloc, reader, limit, repeats)?;
    if bytes.len() > limit as usize {
        return Err(ReadFault::TooLarge);
    }
    Ok(bytes)
}

// All the bytes of a file that the system was asked to open, if they are within the limit.
fn read_opened<R: Read + Drop>(
    alloc: Global,
    opened: io::Result<R>,
    limit: u32,
    repeats: &mut Repeats,
) -> Result<Vec<u8>, ReadFault>
    ensures bytes { IfOk opened (λ file. IfOk result (λ bytes. IsAll (R.remaining file) bytes.items)) }
    ensures within { IfOk result (λ bytes. length bytes.items ≤ limit) }
    ensures too_large { IsErrOf result ReadFault.TooLarge → IfOk opened (λ file. HasMore (R.remaining file) limit) }
    ensures failed { IfErr result (λ fault. (error : Error) → fault ≡ ReadFault.Failed error → IfOk opened (λ _. IsTold error repeats.new)) }
    ensures not_there { IsErrOf result ReadFault.NotThere ↔ IsErrAnd opened (λ error. error_kind error ≡ ErrorKind.NotFound) }
    ensures not_opened { IfErr opened (λ error. error_kind error ≢ ErrorKind.NotFound → IsErrOf result (ReadFault.Failed error)) }
{
    match opened {
        Ok(mut file) => read_all(alloc, &mut file, limit, repeats),
        Err(error) if error.kind() == ErrorKind::NotFound => Err(ReadFault::NotThere),
        Err(error) => Err(ReadFault::Failed(error)),
    }
}

/// The system's files, whose failures are counted.
///
/// A read that was interrupted is made again at most 1,024 times in a fetch. A further interruption is a
/// failure.
#[derive(Drop)]
pub struct Disk<R> {
    rt: R,
    alloc: Global,
    faults: u64,
}

impl<R: std::rt::Files> Disk<R> {
    /// The files that the runtime opens. Takes no memory.
    pub fn new(rt: R, alloc: Global) -> Disk<R>
        ensures faults { ⟦<Disk<R> as Files>⟧.faults result ≡ 0 }
    {
        Disk {
            rt,
            alloc,
            faults: 0,
        }
    }

    // What a fetch tells. A failure is counted.
    fn tell(&mut self, fault: ReadFault) -> FetchFault
        ensures answer { result ≡ told_of fault }
        ensures one_fault { result ≡ FetchFault.Failed → self.new.faults ≡ next_of self.old.faults }
        ensures no_fault { (result ≡ FetchFault.Failed) ⊎ (self.new.faults ≡ self.old.faults) }
        ensures later { self.old.faults ≤ self.new.faults }
    {
        match fault {
            ReadFault::NotThere => FetchFault::NotThere,
            ReadFault::TooLarge => FetchFault::TooLarge,
            ReadFault::Failed(_) => {
                self.faults = self.faults.saturating_add(1);
                FetchFault::Failed
            }
            ReadFault::NoMemory => FetchFault::NoMemory,
        }
    }
}

/// The map is not told. A file that is not found is `NotThere`. A file is read to its end, or to one byte
/// past the limit, which is `TooLarge`. Each other failure raises the count of faults.
impl<R: std::rt::Files> Files for Disk<R> {
    ghost told = { λ _. untold };

    ghost faults = { λ disk. disk.faults };

    fn fetch(&mut self, name: &str, limit: u32) -> Result<Vec<u8>, FetchFault>
        ensures bytes { IfOk result (λ bytes. Holds untold name.now bytes.items) }
        ensures within { IfOk result (λ bytes. length bytes.items ≤ limit) }
        ensures not_there { IsErrOf result FetchFault.NotThere → Lacks untold name.now }
        ensures too_large { IsErrOf result FetchFault.TooLarge → Exceeds untold name.now limit }
        ensures failed { IsErrOf result FetchFault.Failed → Rose self.old.faults self.new.faults }
        ensures later { self.old.faults ≤ self.new.faults }
        ensures same { untold ≡ untold }

        // The count rises by one at each failure, and at nothing else.
        ensures one_fault { IsErrOf result FetchFault.Failed → self.new.faults ≡ next_of self.old.faults }
        ensures no_fault { IsErrOf result FetchFault.Failed ⊎ (self.new.faults ≡ self.old.faults) }
    {
        let opened = File::open(&self.rt, name);
        let mut repeats = Repeats::new();
        match read_opened(self.alloc, opened, limit, &mut repeats) {
            Ok(bytes) => Ok(bytes),
            Err(fault) => Err(self.tell(fault)),
        }
    }
}
