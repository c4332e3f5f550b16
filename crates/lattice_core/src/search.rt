//! Binary search in lists of pairs by rising key: the entries of a page, and the pages of a map by their first keys.

ghost use Rattle.std.specs.Prelude.{◌≡◌, ◌≤◌, T, length, not};
ghost use Rattle.std.specs.Option.{option_copied};
ghost use Rattle.std.specs.Ordering.{is_lt};
ghost use Rattle.std.specs.FinMap.Entries.{find, is_sorted};
ghost use Rattle.lattice_core.specs.Private.Entries.{count_up_to};

use crate::exact::Exact;
use std::cmp::Ordering;

// Count the pairs whose key is at most this key.
pub(crate) fn count_up_to<K: Exact, X>(pairs: &[(K, X)], key: K) -> usize
    requires { T (is_sorted K.cmp pairs.now) }
    ensures bound { result ≤ length pairs.now }
    ensures count { result ≡ count_up_to K.cmp key pairs.now }
{
    pairs.partition_point(
        |pair: &(K, X)| -> bool
            ensures { result ≡ not (is_lt (K.cmp key pair.now.0)) }
        { !is_before(key, pair.0) },
    )
}

// Return the value at a key.
pub(crate) fn value_at<K: Exact, X>(pairs: &[(K, X)], key: K) -> Option<&X>
    requires { T (is_sorted K.cmp pairs.now) }
    ensures { option_copied result ≡ find K.cmp key pairs.now }
{
    let count = count_up_to(pairs, key);
    if count == 0 {
        return None;
    }
    let (last, value) = &pairs[count - 1];
    if is_before(*last, key) {
        return None;
    }
    Some(value)
}

// Return whether a key is before another.
pub(crate) fn is_before<K: Exact>(key: K, other: K) -> bool
    ensures { result ≡ is_lt (K.cmp key other) }
{
    matches!(key.cmp(&other), Ordering::Less)
}
