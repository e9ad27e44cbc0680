//! A word at a site.

/// What a word at a site is.
#[derive(Clone, Copy)]
pub enum Role {
    /// A name that is used, and whether a type is demanded there.
    Name { demanded: bool },
    /// A name after `~`, whether a type is demanded there, and the offset in bytes of the `~`.
    Unwrapped { demanded: bool, tilde: usize },
    /// A name after `&`.
    ChosenFrom,
    /// `#`, `#d` or `#d.n`
    Hash,
    /// The name of a control, without its dot.
    Control,
    /// An occurrence of an entry.
    Occurrence,
}

/// A word at a site: a name that is used, a form of `#`, a control or an occurrence.
#[derive(Clone, Copy)]
pub struct Word {
    /// The index of its rule in the list of rules, from 0.
    pub rule: usize,
    /// The offset in bytes of its token.
    pub at: usize,
    pub role: Role,
    /// The number of its text: of a name without the `<` that begins its arguments, of a control without its dot.
    pub text: u32,
    /// How many arguments a name has; 0 without angles, and for other words.
    pub arguments: usize,
}
