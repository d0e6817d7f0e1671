//! Fields by the types of their parents. Those of one object type stand in one list, and those of the other types that are
//! known in one more: fields of which the parents can be one type stand together in the two.
ghost use Rattle.std.specs.Prelude.{◌≡◌, ◌++◌, ◌∷◌, [], List, IfOk, OnOk, length};
ghost use Rattle.gq_types.specs.Look.{types_view};
ghost use Rattle.gq_merging.specs.Helping.NameTables.{by_name_view};
ghost use Rattle.gq_merging.specs.Helping.ParentTables.{AreByParent};
ghost use Rattle.gq_merging.specs.Helping.SetTables.{MemberOf};
ghost use Rattle.gq_merging.specs.Helping.Views.{member_view, members_view};

use crate::by_name::FieldsByName;
use crate::comparing::is_object;
use crate::rows::Member;
use gq_text::NoMemory;
use gq_types::Types;
use std::alloc::Global;

/// Fields by the types of their parents: those of each object type, and those of the other types that are known.
#[derive(Drop)]
pub(crate) struct FieldsByParent<'a> {
    pub(crate) of_objects: FieldsByName<'a>,
    pub(crate) of_others: Vec<Member<'a>>,
}

impl<'a> FieldsByParent<'a> {
    /// These fields by the types of their parents. Those whose parents are not known are left out.
    pub(crate) fn of(
        alloc: Global,
        types: &Types,
        members: &[Member<'a>],
    ) -> Result<FieldsByParent<'a>, NoMemory>
        ensures { IfOk result (λ t. AreByParent (types_view types.now) (by_name_view t.of_objects) (members_view t.of_others.items) (members_view members.now)) }
    {
        let mut table = FieldsByParent {
            of_objects: FieldsByName::new(alloc),
            of_others: Vec::new(alloc),
        };
        for member in members {
            table.put(alloc, types, member)?;
        }
        Ok(table)
    }

    /// Puts a field to those of the type of its parent, if that is known.
    fn put(&mut self, alloc: Global, types: &Types, member: &Member<'a>) -> Result<(), NoMemory>
        requires { length self.old.of_objects.lists.items ≡ length self.old.of_objects.names }
        ensures { OnOk result ((ms : List MemberOf) →
            AreByParent (types_view types.now) (by_name_view self.old.of_objects) (members_view self.old.of_others.items) ms →
            AreByParent (types_view types.now) (by_name_view self.new.of_objects) (members_view self.new.of_others.items) (ms ++ member_view member.now ∷ [])) }
    {
        let Some(parent) = member.it.parent else {
            return Ok(());
        };
        if is_object(types, parent) {
            self.of_objects.put(alloc, parent, member)?;
        } else if types.kind(parent).is_some() {
            self.of_others.push(*member)?;
        }
        Ok(())
    }
}
