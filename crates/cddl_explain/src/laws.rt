//! What is printed of a code has its number and its name, and each kind of tokens is asked for.

ghost use Rattle.std.specs.Prelude.{◌≡◌, ◌++◌, codes};
ghost use Rattle.std.specs.List.{Contains};
ghost use Rattle.cddl_token.specs.Messages.{code_text};
ghost use Rattle.cddl_token.specs.declared.Code.{Code};
ghost use Rattle.cddl_token.specs.declared.Kind.{Kind};
ghost use Rattle.cddl_explain.specs.Names.{name_of, number_of};

use crate::expected::KINDS;

/// What is printed of a code is its number, a space and its name. It does nothing.
pub fn names_are_printed()
    ensures { (code : Code) → code_text code ≡ number_of code ++ (codes " " ++ name_of code) }
{}

/// Each kind is one of those that are asked for where a token cannot stand. It does nothing.
pub fn each_kind_is_asked()
    ensures { (kind : Kind) → Contains KINDS kind }
{}
