//! How names are spelled.
ghost use Rattle.std.specs.Prelude.{◌≡◌, ◌↔◌, IsTrue, codes, bytes_eq, not, ◌&&◌};
ghost use Rattle.std.specs.List.{list_all};
ghost use Rattle.gq_lex.specs.Bytes.{is_name_start, is_name_continue};
ghost use Rattle.gq_renamed.specs.Names.{IsNameText, IsFragmentNameText};
ghost use Rattle.gq_renamed.specs.Helping.Spelling.{is_name_spelled};

/// Whether the text is a Name (GraphQL, October 2021, section 2.1.9).
pub fn is_name(text: &str) -> bool
    ensures { IsTrue result ↔ IsNameText text.now }
{
    is_spelled(text)
}

/// Whether the text is a FragmentName: a Name, but not `on` (GraphQL, October 2021, section 2.8).
pub fn is_fragment_name(text: &str) -> bool
    ensures { IsTrue result ↔ IsFragmentNameText text.now }
{
    is_free_name(text)
}

/// Whether the text is spelled as a Name and is not `on`.
fn is_free_name(text: &str) -> bool
    ensures { result ≡ (is_name_spelled text.now && not (bytes_eq text.now (codes "on"))) }
{
    is_spelled(text) && text != "on"
}

/// Whether a Name is spelled so.
fn is_spelled(text: &str) -> bool
    ensures { result ≡ is_name_spelled text.now }
{
    is_name_spelled(text.as_bytes())
}

fn is_name_spelled(text: &[u8]) -> bool
    ensures { result ≡ is_name_spelled text.now }
{
    match text {
        [] => false,
        [first, others @ ..] => is_name_start(*first) && all_continue(others),
    }
}

fn all_continue(bytes: &[u8]) -> bool
    ensures { result ≡ list_all is_name_continue bytes.now }
{
    bytes.iter().all(|byte| is_name_continue(*byte))
}

fn is_name_start(byte: u8) -> bool
    ensures { result ≡ is_name_start byte }
{
    byte == b'_' || byte.is_ascii_alphabetic()
}

fn is_name_continue(byte: u8) -> bool
    ensures { result ≡ is_name_continue byte }
{
    byte == b'_' || byte.is_ascii_alphanumeric()
}
