//! Marks at numbers.
ghost use Rattle.std.specs.Prelude.{◌≡◌, false, slice_index_or};

/// Whether the number is marked.
pub fn is_marked(marks: &[bool], number: usize) -> bool
    ensures { result ≡ slice_index_or marks.now number false }
{
    match marks.get(number) {
        Some(mark) => *mark,
        None => false,
    }
}
