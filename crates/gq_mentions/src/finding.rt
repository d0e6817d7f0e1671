//! What an offset in a text means to a query.
ghost use Rattle.std.specs.Prelude.{◌≡◌, find};
ghost use Rattle.std.specs.Option.{option_map};
ghost use Rattle.gq_mentions.specs.Meant.{holds, ends_at, meant};
ghost use Rattle.gq_mentions.specs.Views.{mention_view, mentions_view};

use crate::mention::Mention;

/// The first whose span holds the offset.
fn holder<'a>(all: &[Mention<'a>], offset: usize) -> Option<Mention<'a>>
    ensures { option_map mention_view result ≡ find (holds offset) (mentions_view all.now) }
{
    for one in all {
        if one.span.start <= offset && offset < one.span.end {
            return Some(*one);
        }
    }
    None
}

/// The first whose span ends at the offset.
fn ender<'a>(all: &[Mention<'a>], offset: usize) -> Option<Mention<'a>>
    ensures { option_map mention_view result ≡ find (ends_at offset) (mentions_view all.now) }
{
    for one in all {
        if one.span.end == offset {
            return Some(*one);
        }
    }
    None
}

/// The one that the offset, in bytes, means: the first whose span holds it, else the first whose span ends there.
pub fn meant<'a>(all: &[Mention<'a>], offset: usize) -> Option<Mention<'a>>
    ensures { option_map mention_view result ≡ meant offset (mentions_view all.now) }
{
    match holder(all, offset) {
        Some(one) => Some(one),
        None => ender(all, offset),
    }
}
