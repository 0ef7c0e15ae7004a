//! The first entries of a list.
ghost use Rattle.std.specs.Prelude.{◌≡◌, take};

/// The first `limit` entries, or all where there are fewer.
pub fn first<T>(entries: &[T], limit: usize) -> &[T]
    ensures { result.now ≡ take limit entries.now }
{
    if entries.len() <= limit {
        return entries;
    }
    &entries[..limit]
}
