//! The earliest of some fields, by the document, then by the place.
ghost use Rattle.std.specs.Prelude.{◌≡◌, IfOk, option_map, true};
ghost use Rattle.gq_types.specs.Look.{types_view};
ghost use Rattle.gq_merging.specs.Helping.Comparisons.{may_differ};
ghost use Rattle.gq_merging.specs.FieldsMerge.{Differ};
ghost use Rattle.gq_merging.specs.Helping.SearchTables.{IsEarliest, earlier_of};
ghost use Rattle.gq_merging.specs.Helping.Views.{field_at, member_view, members_view};

use crate::comparing::{differ, is_no_later, known_type};
use crate::pairs::Look;
use crate::purpose::Purpose;
use crate::rows::Member;
use crate::sets::StandingField;
use gq_text::NoMemory;

/// Whether the field can differ from another one: for shapes, its type has to be known.
fn may_differ(look: Look<'_>, field: &StandingField<'_>) -> bool
    ensures { result ≡ may_differ (types_view look.entry.types.now) look.entry.purpose (field_at field.now) }
{
    match look.purpose {
        Purpose::Shapes => known_type(look.types, field).is_some(),
        Purpose::Names => true,
    }
}

/// The earlier one of what was found so far and this field, if that counts.
fn earlier<'a>(counts: bool, so_far: Option<Member<'a>>, member: &Member<'a>) -> Option<Member<'a>>
    ensures { option_map member_view result ≡ earlier_of counts (option_map member_view so_far.entry) (member_view member.now) }
{
    if !counts {
        return so_far;
    }
    let Some(one) = so_far else {
        return Some(*member);
    };
    if is_no_later(&one.it, &member.it) {
        return Some(one);
    }
    Some(*member)
}

/// The earliest of the fields that can differ from another one.
pub(crate) fn earliest_of<'a>(look: Look<'_>, members: &[Member<'a>]) -> Option<Member<'a>>
    ensures { IsEarliest (λ m. may_differ (types_view look.entry.types.now) look.entry.purpose m.field_at ≡ true) (members_view members.now) (option_map member_view result) }
{
    let mut earliest = None;
    for member in members {
        let counts = may_differ(look, &member.it);
        earliest = earlier(counts, earliest, member);
    }
    earliest
}

/// The earliest of the fields that differ from this one.
pub(crate) fn earliest_other<'a>(
    look: Look<'_>,
    one: &Member<'a>,
    members: &[Member<'a>],
) -> Result<Option<Member<'a>>, NoMemory>
    ensures { IfOk result (λ earliest.
        IsEarliest (λ m. Differ (types_view look.entry.types.now) look.entry.purpose (field_at one.now.it) m.field_at)
        (members_view members.now) (option_map member_view earliest)) }
{
    let mut earliest = None;
    for member in members {
        let counts = differ(look.alloc, look.types, look.purpose, &one.it, &member.it)?;
        earliest = earlier(counts, earliest, member);
    }
    Ok(earliest)
}
