//! Rows of a table: the form of a term or of a part of one, with the numbers of its text and its parts.

/// What a row is: the form of a term or of a part of one, without its texts and parts.
#[derive(Clone, Copy, Debug, PartialEq, Eq, Hash)]
pub enum Form {
    /// A number as a type, with its text.
    Number,
    /// A text string as a type, with its text.
    Text,
    /// A byte string as a type, with its text.
    Bytes,
    /// A name that is used; first its reference.
    Named,
    /// `( type )`
    Parens,
    /// `{ group }`
    MapOf,
    /// `[ group ]`
    ArrayOf,
    /// `~ name`
    Unwrapped,
    /// `& ( group )`
    ChoiceOf,
    /// `& name`
    ChoiceOfName,
    /// `#6.n( type )`, with the text of its opening.
    Tagged,
    /// `#6.< type > ( type )`
    TaggedBy,
    /// `#7.< type >`
    SimpleBy,
    /// `#`, `#d` or `#d.n`, with its text.
    Hash,
    /// `a .. b`
    Range,
    /// `a ... b`
    RangeBelow,
    /// A control between two types, with its name.
    Control,
    /// Two types with a `/` between them.
    Or,
    /// A reference: a name as its text, first its arguments.
    Call,
    /// No further arguments.
    NoTerms,
    /// An argument, and the arguments after it.
    Argument,
    /// A group of one alternative.
    Sole,
    /// A group, and a further alternative.
    OrElse,
    /// No entries.
    NoEntries,
    /// Entries, and a further one without a comma.
    Entries,
    /// Entries, and a further one with a comma after it.
    EntriesComma,
    /// A type without a key, with its occurrence if it has one.
    Typed,
    /// A key and a type, with the occurrence if it has one.
    Keyed,
    /// A group in parentheses, with its occurrence if it has one.
    Grouped,
    /// A type as a key, `type =>`.
    TypeKey,
    /// A type as a key with a cut, `type ^ =>`.
    CutKey,
    /// A bareword as a key, with its text.
    Bareword,
    /// A literal as a key.
    LiteralKey,
}

impl Form {
    ghost use Rattle.std.specs.Prelude.{◌≡◌};
    ghost use Rattle.check_terms.specs.Entries.{is_entry};

    /// Whether it is the form of an entry.
    pub fn is_entry(self) -> bool
        ensures { result ≡ is_entry self }
    {
        matches!(self, Form::Typed | Form::Keyed | Form::Grouped)
    }
}

/// A form with the number of its text and the numbers of its parts, where it has them.
#[derive(Clone, Copy, Debug, PartialEq, Eq, Hash)]
pub struct Row {
    pub form: Form,
    pub text: Option<u32>,
    pub first: Option<u32>,
    pub second: Option<u32>,
}
