//! Which units count in lengths.

ghost use Rattle.std.specs.Prelude.{◌≡◌};
ghost use Rattle.yd_ops.specs.View.{content_value};
ghost use Rattle.yd_store.specs.Contents.{counts as are_counted};

use yd_ops::Content;

/// Whether the units of a content count in lengths: all but format marks and deleted ones.
pub fn counts(content: &Content) -> bool
    ensures { result ≡ are_counted (content_value content.now) }
{
    match content {
        Content::Format { .. } | Content::Deleted(_) => false,
        _ => true,
    }
}
