//! Names that each specification may use.

ghost use Rattle.std.specs.Prelude.{◌≡◌};
ghost use Rattle.near_words.specs.Near.{texts};
ghost use Rattle.cddl_explain.specs.Known.{control_names, prelude_names};

static PRELUDE: [&str; 40] = [
    "any",
    "uint",
    "nint",
    "int",
    "bstr",
    "bytes",
    "tstr",
    "text",
    "tdate",
    "time",
    "number",
    "biguint",
    "bignint",
    "bigint",
    "integer",
    "unsigned",
    "decfrac",
    "bigfloat",
    "eb64url",
    "eb64legacy",
    "eb16",
    "encoded-cbor",
    "uri",
    "b64url",
    "b64legacy",
    "regexp",
    "mime-message",
    "cbor-any",
    "float16",
    "float32",
    "float64",
    "float16-32",
    "float32-64",
    "float",
    "false",
    "true",
    "bool",
    "nil",
    "null",
    "undefined",
];

// The names of the prelude (RFC 8610 appendix D), in its order.
pub(crate) fn prelude_names() -> &'static [&'static str]
    ensures { texts result.now ≡ prelude_names }
{
    &PRELUDE
}

// The controls that are known, with their `.`.
pub(crate) fn control_names() -> &'static [&'static str]
    ensures { texts result.now ≡ control_names }
{
    static NAMES: [&str; 16] = [
        ".default", ".and", ".within", ".cbor", ".cborseq", ".eq", ".ne", ".lt", ".le", ".gt",
        ".ge", ".size", ".bits", ".plus", ".cat", ".det",
    ];
    &NAMES
}
