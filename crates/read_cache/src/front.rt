//! Shortcuts for the key that was used last: it is the first of a cache, and is found there without a search of the
//! map.

ghost use Rattle.std.specs.Prelude.{◌≡◌, true, option_copied};
ghost use Rattle.std.specs.Map.{lookup};
ghost use Rattle.lru.specs.LruCache.{lru_cache, promoted};

use lru::LruCache;
use std::hash::Hash;

/// Whether `key` was used last, so that it is the first of the cache already.
fn is_first<K: Eq + Hash, V>(cache: &LruCache<K, V>, key: &K) -> bool
    ensures { result ≡ true → promoted (K.eq key.now) cache.now.entries ≡ cache.now.entries }
{
    match cache.peek_mru() {
        Some((first, _)) => *key == *first,
        None => false,
    }
}

/// The value of `key`, or `None` if the cache does not hold it. The order of the keys does not change.
pub(crate) fn value_of<'a, K: Eq + Hash, V>(cache: &'a LruCache<K, V>, key: &K) -> Option<&'a V>
    ensures { option_copied result ≡ lookup (K.eq key.now) cache.now.entries }
{
    match cache.peek_mru() {
        Some((first, value)) if *key == *first => Some(value),
        _ => cache.peek(key),
    }
}

/// Moves `key` before the other keys, if the cache holds it.
pub(crate) fn promote<K: Eq + Hash, V>(cache: &mut LruCache<K, V>, key: &K)
    ensures { cache.new ≡ lru_cache (promoted (K.eq key.now) cache.old.entries) cache.old.cap }
{
    if !is_first(cache, key) {
        cache.promote(key);
    }
}
