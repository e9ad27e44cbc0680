//! What is known of the literals that rows are.

ghost use Rattle.std.specs.Prelude.{◌≡◌};
ghost use Rattle.std.specs.Option.{option_map};
ghost use Rattle.cddl_literal.specs.Literals.{view};
ghost use Rattle.check_literals.specs.Literals.{fault_at, literal_at};

use cddl_literal::Literal;
use cddl_literal::operators::Fault;

/// What a row is as a literal.
#[derive(Clone, Copy, Debug, PartialEq, Eq)]
pub enum Outcome {
    /// It is none.
    Nothing,
    /// The literal at this place among the values.
    Value(usize),
    /// It is to be computed from two literals, and they make none.
    Faulty(Fault),
}

/// The literals that the rows of a table are.
#[derive(Drop)]
pub struct Literals {
    /// The literals, each once for the rows that share it.
    pub values: Vec<Literal>,
    /// What each row is, by its number.
    pub rows: Vec<Outcome>,
}

impl Literals {
    /// The literal that the type of the row is, if it is one.
    ///
    /// It looks up two numbers.
    pub fn get(&self, row: u32) -> Option<&Literal>
        ensures { option_map (λ l. view l.now) result ≡ literal_at self.now row }
    {
        match self.rows.get(row as usize)? {
            Outcome::Value(place) => self.values.get(*place),
            _ => None,
        }
    }

    /// Why the control of the row computes no literal from its two sides, where both are literals.
    pub fn fault(&self, row: u32) -> Option<Fault>
        ensures { result ≡ fault_at self.now row }
    {
        match self.rows.get(row as usize)? {
            Outcome::Faulty(fault) => Some(*fault),
            _ => None,
        }
    }
}
