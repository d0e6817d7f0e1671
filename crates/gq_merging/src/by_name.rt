//! Fields by a name that is said of them, as their response keys: with a list for each name, fields of one name are found
//! without a look at the others.
ghost use Rattle.std.specs.Prelude.{◌≡◌, ◌++◌, ◌∷◌, [], List, None, Some, IfOk, OnOk, length, position};
ghost use Rattle.std.specs.Option.{option_map_or};
ghost use Rattle.std.specs.Str.{bytes_eq};
ghost use Rattle.gq_types.specs.Entries.{Text};
ghost use Rattle.gq_merging.specs.Helping.NameTables.{AreByKey, AreListed, by_name_view, fields_with};
ghost use Rattle.gq_merging.specs.Helping.SetTables.{MemberOf};
ghost use Rattle.gq_merging.specs.Helping.Views.{field_at, member_view, members_view};

use crate::comparing::key;
use crate::rows::Member;
use gq_names::NameList;
use gq_text::NoMemory;
use std::alloc::Global;

/// The names, each once, and for each the fields of which it is said.
#[derive(Drop)]
pub(crate) struct FieldsByName<'a> {
    pub(crate) names: NameList,
    pub(crate) lists: Vec<Vec<Member<'a>>>,
}

impl<'a> FieldsByName<'a> {
    /// A table without names. It takes no memory.
    pub(crate) fn new(alloc: Global) -> FieldsByName<'a>
        ensures { (said : MemberOf → Text) → AreListed said (by_name_view result) [] }
    {
        FieldsByName {
            names: NameList::new(alloc),
            lists: Vec::new(alloc),
        }
    }

    /// These fields by their keys.
    pub(crate) fn by_key(
        alloc: Global,
        members: &[Member<'a>],
    ) -> Result<FieldsByName<'a>, NoMemory>
        ensures { IfOk result (λ table. AreByKey (by_name_view table) (members_view members.now)) }
    {
        let mut table = FieldsByName::new(alloc);
        for member in members {
            table.put(alloc, key(&member.it), member)?;
        }
        Ok(table)
    }

    /// Puts a field into the list of that name.
    pub(crate) fn put(
        &mut self,
        alloc: Global,
        name: &str,
        member: &Member<'a>,
    ) -> Result<(), NoMemory>
        requires { length self.old.lists.items ≡ length self.old.names }
        ensures { OnOk result ((said : MemberOf → Text) (ms : List MemberOf) →
            said (member_view member.now) ≡ name.now → AreListed said (by_name_view self.old) ms →
            AreListed said (by_name_view self.new) (ms ++ member_view member.now ∷ [])) }
    {
        match self.names.place(name) {
            Some(place) => self.lists[place].push(*member)?,
            None => {
                let list = vec![in alloc; *member; 1]?;
                self.names.push(name)?;
                self.lists.push(list)?;
            }
        }
        Ok(())
    }

    /// The fields in the list of that name, if there is one.
    pub(crate) fn with_name(&self, text: &str) -> Option<&[Member<'a>]>
        ensures { option_map_or (λ those. members_view those.now) result [] ≡ fields_with (by_name_view self.now) text.now }
    {
        let place = self.names.place(text)?;
        let list = self.lists.get(place)?;
        Some(list.as_slice())
    }
}
