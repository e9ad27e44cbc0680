//! A row of which something is asked.
use check_sites::entries::Holder;

/// What is asked of a row.
#[derive(Clone, Copy)]
pub enum Question {
    /// Whether `&` can choose from the group (RFC 8610 section 2.2.2.2).
    ChoosesFrom,
    /// Whether `&` can choose from the group of this reference.
    ChoosesByName,
    /// Whether the type is a whole number, as an end of a range has to be (section 2.2.2.1).
    IsWhole,
    /// Whether the type is a literal, as what items are compared with has to be (section 3.8.6).
    IsLiteral,
    /// Whether the type is a literal and a whole number, as what items are compared with by their order has to be.
    IsNumber,
    /// Whether the type can be a controller of `.size` (section 3.8.1).
    HasSizes,
    /// Whether the type can be a controller of `.bits` (section 3.8.2).
    HasBits,
    /// Whether the type is a whole number as a literal, as the left side of `.plus` has to be (RFC 9165 section 2.1).
    IsAddend,
    /// Whether the type is a string as a literal, as the left side of `.cat` and `.det` has to be (RFC 9165 section 2.2).
    IsString,
    /// Whether the right side of the control is as its left side has to be, and both make a literal. The row is that of the
    /// whole control.
    Computes,
    /// What the group of a map stands for (section 3.5).
    MapGroup,
    /// Whether the entry can stand in a map.
    Entry(Holder),
}

/// A row of which something is asked, with the parameters of a rule in it.
#[derive(Clone, Copy)]
pub struct Part {
    /// The place of the rule in the list of rules, from 0.
    pub rule: usize,
    /// The offset in bytes at which a fault of it is reported.
    pub at: usize,
    pub question: Question,
    pub row: u32,
}
