//! What the server says that it can do, written (LSP 3.17, InitializeResult).
ghost use Rattle.std.specs.Prelude.{◌≡◌, codes, IfOk, OnOk, option_map, unwrap_or, if◌then◌else◌};
ghost use Rattle.serde_json.specs.Data.{string, object, put};
ghost use Rattle.serde_json.specs.View.{view, members_view};
ghost use Rattle.gq_rpc.specs.Encoding.{rename_options, code_action_options, encoding_name, capability_members, initialize_result, synchronization};

use crate::messages::{CodeActionKind, ServerCapabilities};
use gq_text::PositionEncoding;
use serde_json::{Map, Value, json};
use std::alloc::{AllocError, Global};

/// What is said of renames, where they are answered.
fn write_rename_options(alloc: Global, prepare_provider: bool) -> Result<Value, AllocError>
    ensures { IfOk result (λ v. view v ≡ rename_options prepare_provider) }
{
    if prepare_provider {
        json!(in alloc; {"prepareProvider": true})
    } else {
        Ok(Value::Bool(true))
    }
}

/// What is said of code actions, where they are answered.
fn write_code_action_options(alloc: Global) -> Result<Value, AllocError>
    ensures { IfOk result (λ v. view v ≡ code_action_options) }
{
    let extract = CodeActionKind::Extract.name();
    let inline = CodeActionKind::Inline.name();
    let rewrite = CodeActionKind::Rewrite.name();
    json!(in alloc; {"codeActionKinds": [extract, inline, rewrite]})
}

/// How texts are sent.
fn write_synchronization(alloc: Global) -> Result<Value, AllocError>
    ensures { IfOk result (λ v. view v ≡ synchronization) }
{
    json!(in alloc; {"change": 2u64, "openClose": true})
}

/// Puts a member where the flag is true.
fn put_where(
    members: &mut Map<String, Value>,
    alloc: Global,
    flag: bool,
    name: &str,
    value: Value,
) -> Result<(), AllocError>
    ensures { OnOk result (members_view members.new.entries ≡ (if flag
        then put name.now (view value) (members_view members.old.entries)
        else members_view members.old.entries)) }
{
    if !flag {
        return Ok(());
    }
    serde_json::put(members, alloc, name, value)
}

/// The name of an encoding of positions.
fn name_of(encoding: PositionEncoding) -> &'static str
    ensures { result.now ≡ encoding_name encoding }
{
    match encoding {
        PositionEncoding::Utf8 => "utf-8",
        PositionEncoding::Utf16 => "utf-16",
    }
}

/// Puts what positions are counted in, where there is one.
fn put_encoding(
    members: &mut Map<String, Value>,
    alloc: Global,
    encoding: Option<PositionEncoding>,
) -> Result<(), AllocError>
    ensures { OnOk result (members_view members.new.entries ≡ unwrap_or
        (option_map (λ e. put (codes "positionEncoding") (string (encoding_name e))
        (members_view members.old.entries)) encoding)
        (members_view members.old.entries)) }
{
    let Some(encoding) = encoding else {
        return Ok(());
    };
    let name = Value::try_from_str(alloc, name_of(encoding))?;
    serde_json::put(members, alloc, "positionEncoding", name)
}

/// All that the server can do.
fn write_capabilities(alloc: Global, offered: ServerCapabilities) -> Result<Value, AllocError>
    ensures { IfOk result (λ v. view v ≡ object (capability_members offered)) }
{
    let mut members = Map::new(alloc);
    let synchronization = write_synchronization(alloc)?;
    serde_json::put(&mut members, alloc, "textDocumentSync", synchronization)?;
    let rename = write_rename_options(alloc, offered.prepare_provider)?;
    put_where(
        &mut members,
        alloc,
        offered.rename_provider,
        "renameProvider",
        rename,
    )?;
    let references = Value::Bool(true);
    put_where(
        &mut members,
        alloc,
        offered.references_provider,
        "referencesProvider",
        references,
    )?;
    put_encoding(&mut members, alloc, offered.position_encoding)?;
    let hover = Value::Bool(true);
    put_where(
        &mut members,
        alloc,
        offered.hover_provider,
        "hoverProvider",
        hover,
    )?;
    let definition = Value::Bool(true);
    put_where(
        &mut members,
        alloc,
        offered.definition_provider,
        "definitionProvider",
        definition,
    )?;
    let completion = Value::Object(Map::new(alloc));
    put_where(
        &mut members,
        alloc,
        offered.completion_provider,
        "completionProvider",
        completion,
    )?;
    let code_actions = write_code_action_options(alloc)?;
    put_where(
        &mut members,
        alloc,
        offered.code_action_provider,
        "codeActionProvider",
        code_actions,
    )?;
    Ok(Value::Object(members))
}

/// The result of `initialize`.
pub fn write_initialize_result(
    alloc: Global,
    offered: ServerCapabilities,
) -> Result<Value, AllocError>
    ensures { IfOk result (λ v. view v ≡ initialize_result offered) }
{
    let capabilities = write_capabilities(alloc, offered)?;
    json!(in alloc; {"capabilities": capabilities, "serverInfo": {"name": "gqls"}})
}
