//! A rename: files in, an edit or a refusal out.
ghost use Rattle.std.specs.Prelude.{◌≡◌, ◌≤◌, ◌^◌, ℕ, All, List, Err, IfOk, IfErr, length};
ghost use Rattle.gq_edit.specs.Edits.{FitDocuments};
ghost use Rattle.gq_rules.specs.Validity.{IsValid};
ghost use Rattle.gq_rules.specs.ValidityViews.{IsWhy};
ghost use Rattle.gq_project.specs.declared.document.Doc.{Doc};
ghost use Rattle.gq_text.specs.declared.place.Position.{Position};
ghost use Rattle.gq_check.specs.declared.fault.CheckFault.TheVariants as check_fault;
ghost use Rattle.gq_check.specs.Faults.{IsFaultOr};
ghost use Rattle.gq_check.specs.Files.{files_fault};
ghost use Rattle.gq_rename.specs.Rename.{IsRenameAnswer};
ghost use Rattle.gq_codemod.specs.Renames.{IsRenaming, IsRenamingOf, IsRenamed, offset_at, refusal_line};

use crate::edits::{EditedFile, edit_lines, edited_files};
use gq_by_file::valid_by_threads;
use gq_check::files::read_project;
use gq_check::lines::{print_all, text_of};
use gq_check::{CheckFault, File, Format};
use gq_edit::{Edit, to_positions};
use gq_project::Project;
use gq_rename::{Refusal, rename as rename_in};
use gq_rules::{Invalid, Valid, Why};
use gq_text::{NoMemory, Position, PositionEncoding, offset_in};
use std::alloc::Global;
use std::thread::Threads;

/// What a rename comes to.
#[derive(Debug, Drop)]
pub struct Renaming {
    /// What goes to standard output: a line for each edit, `FILE:LINE:COLUMN-LINE:COLUMN: NAME`, or what is wrong with the
    /// project.
    pub output: Vec<u8>,
    /// What goes to standard error: why the rename is refused.
    pub error: Vec<u8>,
    /// The status of the process.
    pub status: u8,
    /// The files that are edited, with their new texts; none where the rename is refused.
    pub edited: Vec<EditedFile>,
}

/// The rename of what is at a position of a file, counted from 0 and in UTF-16 code units (LSP 3.17, "Position"), in the
/// project of these files. An error says that a file is at fault, or that a growth was refused.
pub fn rename(
    alloc: Global,
    files: &[File],
    file: &str,
    position: Position,
    new_name: &str,
) -> Result<Renaming, CheckFault>
    ensures ok { IfOk result (IsRenaming files.now file.now position new_name.now) }
    ensures err { IfErr result (IsFaultOr (files_fault files.now)) }
{
    let project = read_project(alloc, files)?;
    rename_judged(alloc, Valid::new(alloc, project), file, position, new_name)
}

/// The same, where four threads look at the project.
pub fn rename_by_threads<R: Threads + Sync>(
    rt: &R,
    alloc: Global,
    files: &[File],
    file: &str,
    position: Position,
    new_name: &str,
) -> Result<Renaming, CheckFault>
    ensures ok { IfOk result (IsRenaming files.now file.now position new_name.now) }
    ensures err { IfErr result (IsFaultOr (files_fault files.now)) }
{
    let project = read_project(alloc, files)?;
    rename_judged(
        alloc,
        valid_by_threads(rt, alloc, project),
        file,
        position,
        new_name,
    )
}

/// The rename in a project that was judged so.
fn rename_judged(
    alloc: Global,
    judged: Result<Valid, Invalid>,
    file: &str,
    position: Position,
    new_name: &str,
) -> Result<Renaming, CheckFault>
    requires valid { IfOk judged (λ valid. All (λ doc. length doc.text ≤ 2 ^ 22) valid) }
    requires invalid { IfErr judged (λ invalid. All (λ doc. length doc.text ≤ 2 ^ 22) invalid.project) }
    ensures ok { (documents : List Doc) → IfOk judged (λ valid. valid ≡ documents) → IfErr judged (λ invalid. (invalid.project ≡ documents) × IsWhy documents invalid.why)
        → IfOk result (IsRenamingOf documents file.now position new_name.now) }
    ensures err { IfErr result (λ fault. fault ≡ check_fault.NoMemory) }
{
    match judged {
        Ok(valid) => rename_valid(alloc, &valid, file, position, new_name),
        Err(invalid) => refuse_invalid(alloc, &invalid, file, position, new_name),
    }
}

/// The refusal of a rename in a project that is not valid, with what is wrong with it.
fn refuse_invalid(
    alloc: Global,
    invalid: &Invalid,
    file: &str,
    position: Position,
    new_name: &str,
) -> Result<Renaming, CheckFault>
    requires { All (λ doc. length doc.text ≤ 2 ^ 22) invalid.now.project }
    ensures ok { (documents : List Doc) → invalid.now.project ≡ documents → IsWhy documents invalid.now.why → IfOk result (IsRenamingOf documents file.now position new_name.now) }
    ensures err { IfErr result (λ fault. fault ≡ check_fault.NoMemory) }
{
    match &invalid.why {
        Why::Report(report) => Ok(Renaming {
            output: print_all(alloc, Format::Text, &invalid.project, &report.found)?,
            error: refusal_line(alloc, Refusal::ProjectInvalid)?,
            status: 1,
            edited: Vec::new(alloc),
        }),
        Why::NoMemory => Err(CheckFault::NoMemory),
    }
}

/// The rename in a valid project.
fn rename_valid(
    alloc: Global,
    valid: &Valid,
    file: &str,
    position: Position,
    new_name: &str,
) -> Result<Renaming, CheckFault>
    requires { All (λ doc. length doc.text ≤ 2 ^ 22) valid.now }
    ensures ok { IfOk result (IsRenamingOf valid.now file.now position new_name.now) }
    ensures err { IfErr result (λ fault. fault ≡ check_fault.NoMemory) }
{
    let project = valid.project();
    let offset = offset_in(PositionEncoding::Utf16, text_of(project, file), position);
    match rename_in(alloc, valid, file, offset, new_name) {
        Ok(edit) => Ok(renamed(alloc, project, &edit)?),
        Err(Refusal::NoMemory) => Err(CheckFault::NoMemory),
        Err(refusal) => Ok(denied(alloc, refusal)?),
    }
}

/// The edit, as it is printed, and the edited files.
fn renamed(alloc: Global, project: &Project, edit: &Edit) -> Result<Renaming, NoMemory>
    requires fits { FitDocuments project.now edit.now }
    requires texts { All (λ doc. length doc.text ≤ 2 ^ 22) project.now }
    ensures { (file new : List ℕ) (position : Position) →
        IsRenamed project.now file (offset_at project.now file position) new edit.now → IfOk result (IsRenamingOf project.now file position new) }
{
    let by_positions = to_positions(alloc, PositionEncoding::Utf16, project, edit)?;
    Ok(Renaming {
        output: edit_lines(alloc, &by_positions)?,
        error: Vec::new(alloc),
        status: 0,
        edited: edited_files(alloc, project, edit)?,
    })
}

/// A refusal, as it is printed.
fn denied(alloc: Global, refusal: Refusal) -> Result<Renaming, NoMemory>
    ensures { (documents : List Doc) (file new : List ℕ) (position : Position) → ∥ IsValid documents ∥₁ →
        IsRenameAnswer documents file (offset_at documents file position) new (Err refusal)
        → IfOk result (IsRenamingOf documents file position new) }
{
    Ok(Renaming {
        output: Vec::new(alloc),
        error: refusal_line(alloc, refusal)?,
        status: 1,
        edited: Vec::new(alloc),
    })
}

/// The line of a refusal.
fn refusal_line(alloc: Global, refusal: Refusal) -> Result<Vec<u8>, NoMemory>
    ensures { IfOk result (λ line. line.items ≡ refusal_line refusal) }
{
    let message = refusal.message();
    let line = format!(in alloc; "gqls: {message}\n")?;
    Ok(line.into_bytes())
}
