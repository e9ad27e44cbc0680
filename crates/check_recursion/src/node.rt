//! Nodes of the graph of what asks what, each for a row of the table or for an instance, and their numbers.

ghost use Rattle.std.specs.Prelude.{◌≡◌, ◌+◌, ◌*◌};
ghost use Rattle.check_recursion.specs.Edges.{number, within};

/// What is asked of an item or of a list, by the rows of a table and the places of instances.
#[derive(Clone, Copy)]
pub enum Node {
    /// The type, the group, the entries or the entry of a row.
    Row(u32),
    /// The group, the entries or the entry of a row, from which `&` chooses.
    Chosen(u32),
    /// What an instance means.
    Name(u32),
    /// What `~` of an instance unwraps.
    Unwrapping(u32),
    /// What `&` of an instance chooses from.
    Choice(u32),
    /// What `&` chooses from, where the name of an instance is an entry of its group.
    ChosenName(u32),
    /// What `&` chooses from, where `~` before the name of an instance is an entry of its group.
    OpenedChoice(u32),
}

/// How many rows and places there are. Nodes have numbers: two for each row, and five for each place after these.
#[derive(Clone, Copy)]
pub(crate) struct Layout {
    pub rows: u32,
    pub places: u32,
}

impl Layout {
    /// The number of a node, if there is such a row or place.
    pub fn number(self, node: Node) -> Option<usize>
        ensures { result ≡ number self.rows self.places node }
    {
        let first = 2 * self.rows as usize;
        match node {
            Node::Row(row) => within(row, self.rows, 2 * row as usize),
            Node::Chosen(row) => within(row, self.rows, 2 * row as usize + 1),
            Node::Name(place) => within(place, self.places, first + 5 * place as usize),
            Node::Unwrapping(place) => within(place, self.places, first + 5 * place as usize + 1),
            Node::Choice(place) => within(place, self.places, first + 5 * place as usize + 2),
            Node::ChosenName(place) => within(place, self.places, first + 5 * place as usize + 3),
            Node::OpenedChoice(place) => within(place, self.places, first + 5 * place as usize + 4),
        }
    }

    /// How many nodes there are.
    pub fn nodes(self) -> usize
        ensures { result ≡ 2 * self.rows + 5 * self.places }
    {
        2 * self.rows as usize + 5 * self.places as usize
    }
}

// The index, where the number is within its limit.
fn within(number: u32, most: u32, index: usize) -> Option<usize>
    ensures { result ≡ within number most index }
{
    if number < most { Some(index) } else { None }
}
