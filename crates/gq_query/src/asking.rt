//! What an offset in a document of a project means to a query.
ghost use Rattle.std.specs.Prelude.{◌≡◌, ◌<◌, ◌^◌, IfOk};
ghost use Rattle.std.specs.Option.{option_map};
ghost use Rattle.gq_mentions.specs.Views.{mention_view, mentions_view};
ghost use Rattle.gq_index.specs.Indexed.{IsIndexOf};
ghost use Rattle.gq_index.specs.Views.{definitions_view};
ghost use Rattle.gq_query.specs.Asked.{asked};
ghost use Rattle.gq_query.specs.Helping.Own.{all_definitions, mentions_from};

use crate::own::{first_number, own_definitions};
use gq_index::{Executable, Index};
use gq_known::Known;
use gq_mentions::{Mention, meant, put_mentions};
use gq_text::NoMemory;
use std::alloc::Global;

/// What the offset means in the document of that key; nothing where there is no such document. No other document is looked at.
pub(crate) fn asked<'a>(
    alloc: Global,
    known: Known<'a>,
    index: &Index,
    key: &str,
    offset: usize,
) -> Result<Option<Mention<'a>>, NoMemory>
    ensures { IfOk result (λ found. IsIndexOf (all_definitions known.entry.readings.now) index.now
        → option_map mention_view found ≡ asked known.entry.project.now (all_definitions known.entry.readings.now) key.now offset) }
{
    match known.project.place(key) {
        Some(file) => {
            let own = own_definitions(alloc, known.readings, file)?;
            let all = mentions_from(alloc, first_number(index, file), &own)?;
            Ok(meant(&all, offset))
        }
        None => Ok(None),
    }
}

/// What is named in these definitions, of which the first has the number `first`.
fn mentions_from<'a>(
    alloc: Global,
    first: usize,
    definitions: &[Executable<'a>],
) -> Result<Vec<Mention<'a>>, NoMemory>
    requires { first < 2 ^ 63 }
    ensures { IfOk result (λ all. mentions_view all.items ≡ mentions_from first (definitions_view definitions.now)) }
{
    let mut all = Vec::new(alloc);
    for (place, one) in definitions.iter().enumerate() {
        put_mentions(first + place, one.definition, &mut all)?;
    }
    Ok(all)
}
