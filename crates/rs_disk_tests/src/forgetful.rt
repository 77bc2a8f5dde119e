//! A disk that forgets what a failed sync could not write, and answers the next sync with success.

ghost use Rattle.std.specs.Prelude.{◌≡◌};

use rs_disk::{CallLog, Disk, DiskFault, MemoryDisk, is_failing_call};
use rs_page::PAGE_SIZE;
use std::alloc::Global;
use std::marker::Model;
use std::test::Fail;

/// Bytes as a read gives them, and as they are on the medium. A sync brings the pages that were written since the last one to
/// the medium; one that fails forgets which these are, and brings none.
#[derive(Drop)]
pub struct ForgetfulDisk {
    cache: MemoryDisk,
    medium: Vec<u8>,
    written: Vec<u64>,
    /// How many syncs are left up to the one that fails; 0: none is left to fail.
    syncs_left: u64,
    calls: CallLog,
}

impl Model for ForgetfulDisk {
    ghost use Rattle.rs_disk.specs.Calls.{Calls};

    ghost Value = { Calls };

    ghost view = { λ disk. disk.calls };
}

impl ForgetfulDisk {
    /// A disk with these bytes on its medium, of which the sync with this number fails.
    pub fn new(alloc: Global, bytes: Vec<u8>, failing_sync: u64) -> Result<ForgetfulDisk, Fail> {
        Ok(ForgetfulDisk {
            cache: MemoryDisk::from_bytes(bytes.clone()?),
            medium: bytes,
            written: Vec::new(alloc),
            syncs_left: failing_sync,
            calls: CallLog::new(),
        })
    }

    /// What is read once power has failed.
    pub fn medium(&self) -> &Vec<u8> {
        &self.medium
    }
}

impl Disk for ForgetfulDisk {
    ghost use Rattle.std.specs.Prelude.{false};
    ghost use Rattle.std.proofs.lemmas.Bool.{false≢true};

    ghost seen = { λ _. record { size = 0; byte = λ _. 0 } };

    ghost is_honest = { λ _. false };

    ghost failures = { λ calls. calls.failures };

    ghost is_synced = { λ calls. calls.is_synced };

    ghost keeps_crashes = { λ _. false };

    ghost may_leave = { λ _ _. ⊥ };

    ghost left_since = { λ _ _ _. ⊥ };

    ghost zeros_past_the_end = { λ _ honest. absurd (false≢true honest) };

    ghost zeros_past_an_image = { λ _ keeps. absurd (false≢true keeps) };

    ghost reads_too = { λ _ keeps. absurd (false≢true keeps) };

    ghost starts_now = { λ _ keeps. absurd (false≢true keeps) };

    ghost counts_now = { λ _ _ keeps. absurd (false≢true keeps) };

    ghost only_now = { λ _ keeps. absurd (false≢true keeps) };

    fn read(&mut self, at: u64, buffer: &mut [u8]) -> Result<(), DiskFault> {
        let outcome = self.cache.read(at, buffer);
        self.calls.note_read(outcome)
    }

    fn write(&mut self, at: u64, bytes: &[u8]) -> Result<(), DiskFault> {
        let outcome = write_cached(&mut self.cache, &mut self.written, at, bytes);
        self.calls.note_change(outcome)
    }

    fn sync(&mut self) -> Result<(), DiskFault> {
        let outcome = if is_failing_call(&mut self.syncs_left) {
            Err(DiskFault)
        } else {
            bring_all(self.cache.bytes(), &self.written, &mut self.medium)
        };
        self.written.clear();
        self.calls.note_sync(outcome)
    }

    fn cut(&mut self, pages: u32) -> Result<(), DiskFault> {
        let outcome = self.cache.cut(pages);
        self.medium.truncate(PAGE_SIZE * pages as usize);
        self.calls.note_change(outcome)
    }

    fn pages(&self) -> u32 {
        self.cache.pages()
    }

    fn failures(&self) -> u64 {
        self.calls.failures()
    }
}

/// Writes bytes for reads, and notes the pages that they are in.
fn write_cached(
    cache: &mut MemoryDisk,
    written: &mut Vec<u64>,
    at: u64,
    bytes: &[u8],
) -> Result<(), DiskFault> {
    cache.write(at, bytes)?;
    let end = at.saturating_add(bytes.len() as u64);
    for page in at / PAGE_SIZE as u64..end.div_ceil(PAGE_SIZE as u64) {
        written.push(page).map_err(|_| DiskFault)?;
    }
    Ok(())
}

/// Brings pages to the medium.
fn bring_all(cache: &[u8], written: &Vec<u64>, medium: &mut Vec<u8>) -> Result<(), DiskFault> {
    if medium.len() < cache.len() {
        medium.resize(cache.len(), 0).map_err(|_| DiskFault)?;
    }
    for page in written {
        let from = (*page as usize).saturating_mul(PAGE_SIZE).min(cache.len());
        let to = from.saturating_add(PAGE_SIZE).min(cache.len());
        if to <= medium.len() {
            medium[from..to].copy_from_slice(&cache[from..to]);
        }
    }
    Ok(())
}
