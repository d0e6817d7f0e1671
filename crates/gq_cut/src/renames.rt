//! The edits of renames.
ghost use Rattle.std.specs.Prelude.{◌≡◌, ◌≢◌, [], List, IfOk, codes};
ghost use Rattle.std.specs.List.Sorted.{IsStrictlyIncreasing};
ghost use Rattle.gq_text.specs.declared.place.Span.{Span};
ghost use Rattle.gq_lex.specs.declared.token.Kind.TheVariants as kind;
ghost use Rattle.gq_lex.specs.Tokens.{IsToken};
ghost use Rattle.gq_tree.specs.Plain.{Def};
ghost use Rattle.gq_index.specs.Indexed.{IsIndexOfProject};
ghost use Rattle.gq_renamed.specs.Renamings.{fragment_called};
ghost use Rattle.gq_renamed.specs.Projects.{AreTrees, rename_edits};
ghost use Rattle.gq_cut.specs.Cut.{HaveTrees, variable_in};

use crate::edits::edits_at;
use crate::group::group_places;
use gq_edit::Edit;
use gq_index::Index;
use gq_project::Project;
use gq_text::NoMemory;
use std::alloc::Global;

/// The edit that gives a fragment another name: in each document of the project, the name token of its definition and of every spread of it. Its documents
/// have trees, and the index is of them.
pub fn fragment_edit(
    alloc: Global,
    project: &Project,
    index: &Index,
    old_name: &str,
    new_name: &str,
) -> Result<Edit, NoMemory>
    requires trees { ∥ HaveTrees project.now ∥₁ }
    requires index { ∥ IsIndexOfProject project.now index.now ∥₁ }
    requires is_name { IsToken kind.Name new_name.now [] }
    requires not_on { new_name.now ≢ codes "on" }
    ensures { IfOk result (λ edit. IsIndexOfProject project.now index.now → (trees : List (List (Def Span))) → AreTrees project.now trees →
        edit ≡ rename_edits (λ n. fragment_called old_name.now) 0 new_name.now project.now trees) }
{
    let edits = edits_at(
        alloc,
        project.documents(),
        index.occurrences(old_name),
        new_name,
    )?;
    Ok(Edit::from_vec(edits))
}

/// The edit that gives a variable another name in the definitions of these numbers, which ascend: the name token of each of its definitions and uses there,
/// without its `$`. The documents of the project have trees, and the index is of them.
pub fn variable_edit(
    alloc: Global,
    project: &Project,
    index: &Index,
    group: &[usize],
    old_name: &str,
    new_name: &str,
) -> Result<Edit, NoMemory>
    requires trees { ∥ HaveTrees project.now ∥₁ }
    requires index { ∥ IsIndexOfProject project.now index.now ∥₁ }
    requires ascending { IsStrictlyIncreasing group.now }
    requires is_name { IsToken kind.Name new_name.now [] }
    ensures { IfOk result (λ edit. IsIndexOfProject project.now index.now → (trees : List (List (Def Span))) → AreTrees project.now trees →
        edit ≡ rename_edits (variable_in group.now old_name.now) 0 new_name.now project.now trees) }
{
    let places = group_places(alloc, index, group, old_name)?;
    let edits = edits_at(alloc, project.documents(), &places, new_name)?;
    Ok(Edit::from_vec(edits))
}
