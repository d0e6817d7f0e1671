//! The texts that refactorings put.
ghost use Rattle.std.specs.Prelude.{◌≡◌, ◌∷◌, IfOk, map};
ghost use Rattle.gq_tree.specs.Views.{directive_view};
ghost use Rattle.gq_laws.specs.Rewriting.Parts.{DirectivesFit, IsPartOf, between};
ghost use Rattle.gq_laws.specs.Cutting.Texts.{begins_with_name, directives_text, fragment_text, inlined_text, opened_text, spread_text};

use gq_text::{NoMemory, OwnedText, Span};
use gq_tree::Directive;
use std::alloc::Global;

/// Whether the text begins with a letter, a digit or an underscore.
fn begins_with_name(text: &str) -> bool
    ensures { result ≡ begins_with_name text.now }
{
    match text.as_bytes().first() {
        Some(byte) => *byte == b'_' || byte.is_ascii_alphanumeric(),
        None => false,
    }
}

/// The spread of a new fragment, as it stands before this text.
pub(crate) fn spread_text(alloc: Global, name: &str, after: &str) -> Result<OwnedText, NoMemory>
    ensures { IfOk result (λ text. text ≡ spread_text name.now after.now) }
{
    let mut text = String::new(alloc);
    text.push_str("...")?;
    text.push_str(name)?;
    if begins_with_name(after) {
        text.push_str(" ")?;
    }
    Ok(OwnedText::from_string(text))
}

/// The definition of a new fragment with the text of its selections.
pub(crate) fn fragment_text(
    alloc: Global,
    name: &str,
    on: &str,
    run: &str,
) -> Result<OwnedText, NoMemory>
    ensures { IfOk result (λ text. text ≡ fragment_text name.now on.now run.now) }
{
    let mut text = String::new(alloc);
    text.push_str("\n\nfragment ")?;
    text.push_str(name)?;
    text.push_str(" on ")?;
    text.push_str(on)?;
    text.push_str(" {\n")?;
    text.push_str(run)?;
    text.push_str("\n}\n")?;
    Ok(OwnedText::from_string(text))
}

/// The text behind a space.
fn behind_space(alloc: Global, text: &str) -> Result<OwnedText, NoMemory>
    ensures { IfOk result (λ made. made ≡ 32 ∷ text.now) }
{
    let mut made = String::new(alloc);
    made.push_str(" ")?;
    made.push_str(text)?;
    Ok(OwnedText::from_string(made))
}

/// The text from the first of the directives to the last one, behind a space.
fn directives_text(
    alloc: Global,
    text: &str,
    directives: &[Directive],
) -> Result<OwnedText, NoMemory>
    requires { DirectivesFit text.now 0 (map directive_view directives.now) }
    ensures { IfOk result (λ made. made ≡ directives_text text.now (map directive_view directives.now)) }
{
    if directives.is_empty() {
        return Ok(OwnedText::from_string(String::new(alloc)));
    }
    let start = directives[0].span.start;
    let end = directives[directives.len() - 1].span.end;
    let between = &text[start..end];
    behind_space(alloc, between)
}

/// What takes the place of a spread with these directives in the text.
pub(crate) fn inlined_text(
    alloc: Global,
    text: &str,
    home: &str,
    directives: &[Directive],
    on: &str,
    braces: Span,
) -> Result<OwnedText, NoMemory>
    requires directives { DirectivesFit text.now 0 (map directive_view directives.now) }
    requires braces { IsPartOf home.now braces }
    ensures { IfOk result (λ made. made ≡ inlined_text text.now home.now on.now (map directive_view directives.now) braces) }
{
    let set = &home[braces.start..braces.end];
    let conditions = directives_text(alloc, text, directives)?;
    let mut made = String::new(alloc);
    made.push_str("...on ")?;
    made.push_str(on)?;
    made.push_str(conditions.as_str())?;
    made.push_str(" ")?;
    made.push_str(set)?;
    Ok(OwnedText::from_string(made))
}

/// A space, what stands between the braces, a space.
pub(crate) fn opened_text(alloc: Global, text: &str, braces: Span) -> Result<OwnedText, NoMemory>
    requires { IsPartOf text.now (between braces) }
    ensures { IfOk result (λ made. made ≡ opened_text text.now braces) }
{
    let inside = &text[braces.start + 1..braces.end - 1];
    let mut made = String::new(alloc);
    made.push_str(" ")?;
    made.push_str(inside)?;
    made.push_str(" ")?;
    Ok(OwnedText::from_string(made))
}
