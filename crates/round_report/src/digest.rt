//! The digest of a memory.

ghost use Rattle.std.specs.Prelude.{◌≡◌, ◌++◌, codes, IfOk, OnOk};
ghost use Rattle.std.specs.List.{concat};
ghost use Rattle.std.specs.Bool.{Decides};
ghost use Rattle.sha2.specs.Sha256.{sha256};
ghost use Rattle.report_spec.specs.Text.{line};
ghost use Rattle.report_spec.specs.Report.{memory_digest};

use super::lines::text_line;
use page_store::PageTable;
use sha2::{Digest, Sha256};
use std::alloc::{AllocError, Global};
use std::marker::Model;

/// A memory and its digest. A later report of the same memory takes the digest from here: to compare two memories takes
/// far less time than to digest one. A clause sees the memory.
#[derive(Drop)]
pub struct Digested {
    memory: PageTable,
    digest: [u8; 32],
}

impl Model for Digested {
    ghost use Rattle.std.specs.Prelude.{◌≡◌, ℕ, List};
    ghost use Rattle.std.specs.List.{concat};
    ghost use Rattle.sha2.specs.Sha256.{sha256};

    ghost Value = { List (List ℕ) };

    ghost view = { λ d. d.memory };

    ghost invariant = { λ d. d.digest ≡ sha256 (concat d.memory) };
}

impl Digested {
    /// A memory with its digest. No page is copied.
    pub(super) fn of(memory: &PageTable) -> Result<Digested, AllocError>
        ensures { IfOk result (λ d. d ≡ memory.now) }
    {
        let digest = digest_of(memory);
        Ok(Digested {
            memory: memory.snapshot()?,
            digest,
        })
    }

    /// The memory's digest.
    fn digest(&self) -> &[u8; 32]
        ensures { result.now ≡ sha256 (concat self.now) }
    {
        &self.digest
    }

    /// Whether it holds this memory.
    pub(super) fn is_of(&self, memory: &PageTable) -> bool
        ensures { Decides result (self.now ≡ memory.now) }
    {
        self.memory == *memory
    }
}

/// Appends the line of a memory's digest, in hexadecimal.
#[tactic(auto, unfolding(report_spec::specs::Report::memory_digest))]
pub(super) fn memory_line(
    alloc: Global,
    digested: &Digested,
    into: &mut Vec<u8>,
) -> Result<(), AllocError>
    ensures { OnOk result (into.new.items
        ≡ into.old.items ++ line (codes "memory") (memory_digest digested.now)) }
{
    let digest = hex::encode(alloc, digested.digest().as_slice())?;
    text_line("memory", digest.as_bytes(), into)
}

/// The digest of all pages in order (FIPS 180-4, SHA-256). No page is copied.
fn digest_of(memory: &PageTable) -> [u8; 32]
    ensures { result ≡ sha256 (concat memory.now) }
{
    let mut hasher = Sha256::new();
    for slot in 0..memory.len() {
        hasher.update(memory.page(slot).bytes().as_slice());
    }
    hasher.finalize()
}
