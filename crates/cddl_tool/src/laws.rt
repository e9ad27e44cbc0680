//! What is read of a long text tells what all of it does.

ghost use Rattle.std.specs.Prelude.{ℕ, List, Option, take};
ghost use Rattle.cddl_check.specs.Text.{IsUnreadText};
ghost use Rattle.cddl_table.specs.Text.{IsTabledText};
ghost use Rattle.cddl_token.specs.declared.Refusal.{Refusal};
ghost use Rattle.table_nodes.specs.declared.table.Table.{Table};
ghost use Rattle.command_line.specs.Reading.{most_read};

/// The first 1,048,577 bytes of a text tell whether it is accepted, and else why it is refused: a text that has as many is
/// too long. It does nothing.
pub fn front_tells()
    ensures tabled { (text : List ℕ) (root : Option (List ℕ)) (table : Table) → IsTabledText (take most_read text) root table → IsTabledText text root table }
    ensures unread { (text : List ℕ) (root : Option (List ℕ)) (why : Refusal) → IsUnreadText (take most_read text) root why → IsUnreadText text root why }
{}
