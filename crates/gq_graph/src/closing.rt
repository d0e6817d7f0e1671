//! What was found, closed under a table.
ghost use Rattle.std.specs.Prelude.{◌≡◌, ◌≤◌, length, take, drop, OnOk};
ghost use Rattle.gq_graph.specs.Reach.{row, InRange};
ghost use Rattle.gq_graph.specs.Helping.Found.{Marked};
ghost use Rattle.gq_graph.specs.Components.{Led, Closed};

use crate::found::Found;
use gq_text::NoMemory;

/// Takes in all that the found numbers lead to. What the first of them lead to, as many as are done, is found already.
pub fn close(rows: &[Vec<usize>], found: &mut Found, mut done: usize) -> Result<(), NoMemory>
    requires rows { InRange rows.now }
    requires marked { Marked found.old.marks.items found.old.numbers.items }
    requires count { length found.old.marks.items ≡ length rows.now }
    requires done { done ≤ length found.old.numbers.items }
    requires led { Led (row rows.now) (take done found.old.numbers.items) found.old.numbers.items }
    ensures count { OnOk result (length found.new.marks.items ≡ length found.old.marks.items) }
    ensures marked { OnOk result (Marked found.new.marks.items found.new.numbers.items) }
    ensures closed { OnOk result (Closed (row rows.now) (drop done found.old.numbers.items) found.old.numbers.items found.new.numbers.items) }
{
    while done < found.numbers.len() {
        let number = found.numbers[done];
        found.add_all(&rows[number])?;
        done += 1;
    }
    Ok(())
}
