//! What is known of controllers and their members.

ghost use Rattle.std.specs.Prelude.{◌≡◌};
ghost use Rattle.std.specs.Option.{option_map};
ghost use Rattle.table_nodes.specs.SizeSets.{set_view};
ghost use Rattle.check_terms.specs.Texts.Controls.{membership_view};
ghost use Rattle.check_literals.specs.Sizes.Sizes.{flags_of, sizes_at, sizes_of};

use check_terms::texts::Membership;
use table_nodes::NumberSet;

/// For each row whether its type may be the controller of `.size`, and of `.bits`.
#[derive(Drop)]
pub struct Controllers {
    pub sizes: Vec<bool>,
    pub bits: Vec<bool>,
}

impl Controllers {
    /// The flags of all rows for one of these controls.
    pub fn of(&self, membership: Membership) -> &[bool]
        ensures { result.now ≡ flags_of self.now (membership_view membership) }
    {
        match membership {
            Membership::Size => self.sizes.as_slice(),
            Membership::Bits => self.bits.as_slice(),
        }
    }
}

/// The members of the types that are controllers of `.size`, and of those that are controllers of `.bits`.
#[derive(Drop)]
pub struct Members {
    pub sizes: Sizes,
    pub bits: Sizes,
}

impl Members {
    /// Those of the controllers of one of these controls.
    pub fn of(&self, membership: Membership) -> &Sizes
        ensures { result.now ≡ sizes_of self.now (membership_view membership) }
    {
        match membership {
            Membership::Size => &self.sizes,
            Membership::Bits => &self.bits,
        }
    }
}

/// The members of the types that are controllers of one control, by the rows of these types.
#[derive(Drop)]
pub struct Sizes {
    /// The members of one type after the other.
    pub lists: Vec<NumberSet>,
    /// For each row the place of its members among these, if it is such a controller and has some.
    pub rows: Vec<Option<usize>>,
}

impl Sizes {
    /// The members of the row's type, which is such a controller, if it is one as it has to be.
    ///
    /// It looks up two numbers.
    pub fn get(&self, row: u32) -> Option<&NumberSet>
        ensures { option_map (λ z. set_view z.now) result ≡ sizes_at self.now row }
    {
        let place = (*self.rows.get(row as usize)?)?;
        self.lists.get(place)
    }
}
