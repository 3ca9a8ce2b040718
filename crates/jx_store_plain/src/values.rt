//! Whether a value was made.
ghost use Rattle.std.specs.Prelude.{◌≡◌, ◌≤◌};
ghost use Rattle.jx_store_plain.specs.Made.{one_made};

use jx_store::Named;

// One where a value was made.
pub(crate) fn one_made<V>(named: &Named<V>) -> u64
    ensures is { result ≡ one_made named.now }
    ensures few { result ≤ 1 }
{
    match named {
        Named::Made(_) => 1,
        Named::Bad(_) | Named::Short(_) => 0,
    }
}
