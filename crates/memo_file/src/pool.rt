//! The pool: pages of which no two are equal.

ghost use Rattle.std.specs.Prelude.{◌≡◌, ◌∷◌, [], ◌++◌, length, map, IfOk};
ghost use Rattle.std.specs.Arc.{arc_value};
ghost use Rattle.memo_spec.specs.Reader.{chain};
ghost use Rattle.memo_spec.specs.Reading.{pool_page_at};
ghost use Rattle.memo_file.specs.Gives.{Gives};
ghost use Rattle.memo_file.specs.Seen.{Knows};

use crate::error::ReadError;
use crate::fields::run;
use ith_text::Cursor;
use memo_spec::Refusal;
use memory_spec::PAGE_SIZE;
use page_store::Page;
use std::alloc::Global;
use std::collections::BTreeMap;
use std::sync::Arc;

/// The page of these bytes.
fn page_of(piece: &[u8]) -> Page
    requires { length piece.now ≡ PAGE_SIZE }
    ensures { result ≡ piece.now }
{
    let mut bytes = [0; PAGE_SIZE];
    bytes.copy_from_slice(piece);
    Page::new(bytes)
}

/// A page that equals none of those that were seen.
#[tactic(auto, unfolding(memo_spec::specs::Reading::pool_page_at))]
fn pool_page<'a>(
    cursor: &mut Cursor<'a>,
    seen: &mut BTreeMap<&'a [u8], ()>,
    pages: &[Arc<Page>],
) -> Result<Page, ReadError>
    requires knows { Knows seen.old (map arc_value pages.now) }
    ensures knows { IfOk result (λ page. Knows seen.new (map arc_value pages.now ++ page ∷ [])) }
    ensures given { Gives
        (λ page. ((page, map arc_value pages.now ++ page ∷ []), cursor.new)) result
        (pool_page_at (map arc_value pages.now) cursor.old) }
{
    let at = cursor.position();
    let piece = run(cursor, PAGE_SIZE)?;
    match seen.insert(piece, ())? {
        None => Ok(page_of(piece)),
        Some(_) => Err(ReadError::Refused(Refusal::Field(at))),
    }
}

/// The next `count` pages, of which no two are equal. No memory is reserved before they are found to be there.
pub fn read_pool(
    alloc: Global,
    cursor: &mut Cursor,
    count: u32,
) -> Result<Vec<Arc<Page>>, ReadError>
    ensures { Gives (λ v. ((map arc_value v.items, map arc_value v.items), cursor.new)) result
        (chain pool_page_at count [] cursor.old) }
{
    let mut seen = BTreeMap::new(alloc);
    let mut pages = Vec::new(alloc);
    for _ in 0..count {
        let page = pool_page(cursor, &mut seen, &pages)?;
        pages.push(Arc::new(alloc, page)?)?;
    }
    Ok(pages)
}
