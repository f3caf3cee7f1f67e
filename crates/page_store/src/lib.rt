//! Memory by pages of 4,096 bytes: tables that share pages, the page map of a guest, what a thunk stored and which
//! pages it read, and stores written to shared pages.
//!
//! - A page, and a table of pages.
//! - The page map: which pages a guest has, in which slot each is, and what each permits; ranges of addresses, and
//!   whether their bytes may be read; and the trait of a memory that a thread works on.
//! - What is kept of a thunk's memory: at which places of a page it stored, the pages that it stored to, and the pages
//!   that it read; and how these stores are written to a table.
#![tactic(auto)]

mod committing;
mod delta;
mod group;
mod lookup;
mod map_table;
mod mask;
mod merging;
mod page;
mod pages;
mod permission;
mod range;
mod reads;
mod shelf;
mod stored;
mod table;
mod working;

pub use committing::{commit, committed, committed_page};
pub use delta::{Delta, OwnCopy, PageDelta};
pub use mask::{MASK_WORDS, Mask};
pub use memory_spec::PAGE_SIZE;
pub use page::Page;
pub use pages::{MappedPage, PageMap, Slot};
pub use permission::Perm;
pub use range::{Range, appends_all};
pub use reads::{ReadPage, Reads};
pub use stored::StoredPage;
pub use table::PageTable;
pub use working::Mem;
