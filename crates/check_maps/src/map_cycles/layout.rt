//! The numbers of the nodes of the graph.

ghost use Rattle.std.specs.Prelude.{◌≡◌, ◌+◌, ◌*◌, IfSome};
ghost use Rattle.check_maps.specs.MapCycles.Edges as by;

use crate::spliced::Owner;

/// How many parts of rows, spliced entries and instances there are. The parts' nodes have the parts' numbers; then comes one
/// for each entry, and two for each instance: one by its name, and one that is opened.
#[derive(Clone, Copy)]
pub(crate) struct Layout {
    pub parts: u32,
    pub entries: u32,
    pub places: u32,
}

// The layout, if numbers of 32 bits can tell.
pub(crate) fn layout_of(parts: usize, entries: usize, places: usize) -> Option<Layout>
    ensures parts { IfSome result (λ l. l.parts ≡ parts) }
    ensures entries { IfSome result (λ l. l.entries ≡ entries) }
    ensures places { IfSome result (λ l. l.places ≡ places) }
{
    let parts = u32::try_from(parts).ok()?;
    let entries = u32::try_from(entries).ok()?;
    let places = u32::try_from(places).ok()?;
    Some(Layout {
        parts,
        entries,
        places,
    })
}

impl Layout {
    /// How many nodes there are.
    pub fn nodes(self) -> usize
        ensures { result ≡ by.nodes self }
    {
        self.parts as usize + self.entries as usize + 2 * self.places as usize
    }

    /// The node of an entry of the list.
    pub fn entry(self, place: u32) -> usize
        ensures { result ≡ by.entry_node self place }
    {
        self.parts as usize + place as usize
    }

    /// The node of an owner. A map's own group needs none: no entry leads to it.
    pub fn owner(self, owner: Owner) -> Option<usize>
        ensures { result ≡ by.owner_node self owner }
    {
        let first = self.parts as usize + self.entries as usize;
        match owner {
            Owner::Map => None,
            Owner::Named(place) => Some(first + 2 * place as usize),
            Owner::Opened(place) => Some(first + 2 * place as usize + 1),
        }
    }
}
