//! The codes of the faults of words.

/// A code that is reported at words of a text.
#[derive(Clone, Copy, Debug, PartialEq, Eq)]
pub enum SiteCode {
    /// A name that nothing defines, and that is no parameter and no socket.
    Undefined,
    /// A name with another number of arguments than it has parameters, or a parameter with arguments (RFC 8610 section 3.10).
    Arity,
    /// The name of a group where a type is demanded, or of a type after `&` (RFC 8610 sections 2.1 and 2.2.2.2).
    GroupAsType,
    /// A `#` of a form that stands for nothing (RFC 8610 section 2.2.3).
    HashForm,
    /// A control that is not known (RFC 8610 section 3.8; RFC 9165).
    UnknownControl,
}
