//! Marks at numbers.
ghost use Rattle.std.specs.Prelude.{◌≡◌, ◌<◌, length, All};
ghost use Rattle.gq_graph.specs.Components.{Also};

/// Marks the numbers, beside what is marked.
pub fn mark_all(marks: &mut Vec<bool>, numbers: &[usize])
    requires range { All (λ n. n < length marks.old.items) numbers.now }
    ensures count { length marks.new.items ≡ length marks.old.items }
    ensures also { Also numbers.now marks.old.items marks.new.items }
{
    for number in numbers {
        marks[*number] = true;
    }
}
