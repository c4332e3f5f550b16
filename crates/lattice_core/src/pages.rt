//! The pages of a map, each with its first key, by rising key.

ghost use Rattle.std.specs.Prelude.{◌≡◌, ◌<◌, IfOk, T, length};
ghost use Rattle.std.specs.Option.{option_copied};
ghost use Rattle.std.specs.FinMap.Entries.{find, is_sorted};
ghost use Rattle.lattice_core.specs.Private.Entries.{ArePages, BeginsWith, all_entries, put_joined};

use crate::OutOfMemory;
use crate::exact::Exact;
use crate::lattice::Lattice;
use crate::page::{PAGE_LENGTH, Page};
use crate::search::{count_up_to, is_before, value_at};
use std::alloc::Global;

// Make a list of the same pages, with room for one more page. Each page gets one more owner.
pub(crate) fn share<K: Exact, V: Lattice>(
    alloc: Global,
    pages: &[(K, Page<K, V>)],
) -> Result<Vec<(K, Page<K, V>)>, OutOfMemory>
    ensures { IfOk result (λ same. same.items ≡ pages.now) }
{
    let mut same = Vec::with_capacity(alloc, pages.len().saturating_add(1))?;
    for (first, page) in pages {
        same.push((*first, page.share()?))?;
    }
    Ok(same)
}

// Return the value at a key.
pub(crate) fn value_in<K: Exact, V: Lattice>(pages: &[(K, Page<K, V>)], key: K) -> Option<&V>
    requires pages { ArePages pages.now }
    requires rising { T (is_sorted K.cmp (all_entries pages.now)) }
    ensures { option_copied result ≡ find K.cmp key (all_entries pages.now) }
{
    let count = count_up_to(pages, key);
    if count == 0 {
        return None;
    }
    value_at(pages[count - 1].1.entries(), key)
}

// Join a value in at a key. A page that has other owners is copied first.
pub(crate) fn join_in<K: Exact, V: Lattice>(
    alloc: Global,
    pages: &mut Vec<(K, Page<K, V>)>,
    key: K,
    value: &V,
) -> Result<(), OutOfMemory>
    requires pages { ArePages pages.old.items }
    requires rising { T (is_sorted K.cmp (all_entries pages.old.items)) }
    ensures joined { IfOk result (λ _.
        all_entries pages.new.items ≡ put_joined K.cmp V.join (all_entries pages.old.items) key value.now) }
    ensures pages { IfOk result (λ _. ArePages pages.new.items) }
{
    if pages.is_empty() {
        pages.push((key, Page::of_one(alloc, key, value)?))?;
        return Ok(());
    }
    let at = count_up_to(pages, key).saturating_sub(1);
    join_in_page(&mut pages[at], key, value)?;
    split(alloc, pages, at)
}

// Join a value in at a key of a page. The key may become the page's first.
fn join_in_page<K: Exact, V: Lattice>(
    page: &mut (K, Page<K, V>),
    key: K,
    value: &V,
) -> Result<(), OutOfMemory>
    requires { BeginsWith page.old.0 page.old.1 }
    ensures joined { IfOk result (λ _. page.new.1 ≡ put_joined K.cmp V.join page.old.1 key value.now) }
    ensures first { IfOk result (λ _. BeginsWith page.new.0 page.new.1) }
{
    page.1.join_in(key, value)?;
    if is_before(key, page.0) {
        page.0 = key;
    }
    Ok(())
}

// Split the page at index `at` if it has too many entries. The last page is split before its last entry, so that a map
// which grows by rising keys has full pages. Every other page is split in the middle.
fn split<K: Exact, V: Lattice>(
    alloc: Global,
    pages: &mut Vec<(K, Page<K, V>)>,
    at: usize,
) -> Result<(), OutOfMemory>
    requires at { at < length pages.old.items }
    requires pages { ArePages pages.old.items }
    ensures same { IfOk result (λ _. all_entries pages.new.items ≡ all_entries pages.old.items) }
    ensures pages { IfOk result (λ _. ArePages pages.new.items) }
{
    let entries = pages[at].1.entries();
    if entries.len() <= PAGE_LENGTH {
        return Ok(());
    }
    let place = if at == pages.len() - 1 {
        PAGE_LENGTH
    } else {
        PAGE_LENGTH / 2
    };
    let (lower, upper) = entries.split_at(place);
    let lower = Page::of_entries(alloc, lower)?;
    let upper = Page::of_entries(alloc, upper)?;
    pages[at] = lower;
    pages.insert(at + 1, upper)?;
    Ok(())
}
