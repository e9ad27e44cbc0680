//! A definition of a name by numbers: its parameters, its sign and its body.

/// The sign of a definition.
#[derive(Clone, Copy)]
pub enum Sign {
    /// `=`
    Is,
    /// `/=`
    TypeOr,
    /// `//=`
    GroupOr,
}

/// What a definition has after its sign, by the number of its row.
#[derive(Clone, Copy)]
pub enum Body {
    /// A type.
    Types(u32),
    /// An entry of a group.
    Entry(u32),
}

/// A definition of a name, by numbers.
#[derive(Drop)]
pub struct Definition {
    /// The number of the name's text.
    pub name: u32,
    /// The numbers of the parameters' texts, in order.
    pub parameters: Vec<u32>,
    pub sign: Sign,
    pub body: Body,
}
