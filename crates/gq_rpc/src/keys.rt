//! Keys of documents: one name for all ways to write a document's URI (URL Standard, section 4).
ghost use Rattle.std.specs.Prelude.{◌≡◌, ◌≤◌, ◌++◌, length, drop, take, string_bytes, IfOk, OnOk};
ghost use Rattle.std.specs.List.{position, position_or_len};
ghost use Rattle.gq_rpc.specs.Keys.{is_slash, part_key, path_key, url_key, key_of_uri};

use crate::header::skip;
use gq_text::{NoMemory, OwnedText};
use percent_encoding::{AsciiSet, NON_ALPHANUMERIC, ascii_set, percent_decode, percent_encode};
use std::alloc::{AllocError, Global};
use url::{ParseError, Position, Url};

/// What a path escapes beside the bytes that are no ASCII: all but the unreserved characters.
pub const ESCAPED: AsciiSet = ascii_set!(
    NON_ALPHANUMERIC
        .remove(b'-')
        .remove(b'.')
        .remove(b'_')
        .remove(b'~')
);

/// Adds a part of a path, decoded and escaped again.
fn add_part(alloc: Global, out: &mut String, part: &[u8]) -> Result<(), AllocError>
    ensures { OnOk result (string_bytes out.new ≡ string_bytes out.old ++ part_key part.now) }
{
    let mut bytes = Vec::new(alloc);
    percent_decode(part).append_to(&mut bytes)?;
    percent_encode(&bytes, ESCAPED).append_to(out)
}

/// Where the first slash stands.
fn find_slash(path: &[u8]) -> Option<usize>
    ensures { result ≡ position is_slash path.now }
{
    path.iter().position(|b| *b == b'/')
}

/// How many bytes stand before the first slash.
fn part_len(path: &[u8]) -> usize
    ensures count { result ≡ position_or_len is_slash path.now }
    ensures within { result ≤ length path.now }
{
    find_slash(path).unwrap_or(path.len())
}

/// Adds a path, its parts escaped in one way.
fn add_path(alloc: Global, out: &mut String, path: &[u8]) -> Result<(), AllocError>
    ensures { OnOk result (string_bytes out.new ≡ string_bytes out.old ++ path_key path.now) }
{
    let mut rest = path;
    'parts: loop {
        let len = part_len(rest);
        add_part(alloc, out, &rest[..len])?;
        if len == rest.len() {
            return Ok(());
        }
        out.push('/')?;
        rest = skip(rest, len + 1);
    }
}

/// The text of a URL with its path escaped in one way.
fn write_key(alloc: Global, url: &Url) -> Result<String, AllocError>
    ensures { IfOk result (λ key. string_bytes key ≡ url_key url.now) }
{
    let mut key = String::from_str(
        alloc,
        url.slice(Position::BeforeScheme, Position::BeforePath),
    )?;
    add_path(alloc, &mut key, url.path().as_bytes())?;
    key.push_str(url.slice(Position::AfterPath, Position::AfterFragment))?;
    Ok(key)
}

/// The key of a URI, if it is a URL: its text with each part of the path between slashes decoded, and each byte of it
/// escaped again in upper-case hexadecimal unless it is unreserved. A URL over 4 GiB long counts as refused memory.
pub fn key_of(alloc: Global, uri: &str) -> Result<Option<OwnedText>, NoMemory>
    ensures { IfOk result (λ key. key ≡ key_of_uri uri.now) }
{
    match Url::parse(alloc, uri) {
        Ok(url) => Ok(Some(OwnedText::from_string(write_key(alloc, &url)?))),
        Err(ParseError::OutOfMemory | ParseError::Overflow) => Err(NoMemory),
        Err(_) => Ok(None),
    }
}
