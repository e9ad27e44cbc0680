//! Laws, whose functions do nothing: what is known of rules and pieces in a table that has grown, and in other words.

ghost use Rattle.std.specs.Prelude.{◌≡◌, List};
ghost use Rattle.cddl_language.specs.Terms.{Term};
ghost use Rattle.check_terms.specs.Table.{Grows, Table};
ghost use Rattle.tree_nodes.specs.Syntax.Syntax as S;
ghost use Rattle.source_pieces.specs.Origins.{ArePieces};
ghost use Rattle.source_pieces.specs.Rules.{AreRules};
ghost use Rattle.source_pieces.specs.Spans.{IsSpan};
ghost use Rattle.source_pieces.specs.declared.piece.PieceAt.{PieceAt};
ghost use Rattle.source_pieces.specs.declared.rules.RuleAt.{RuleAt};
ghost use Rattle.source_pieces.specs.declared.span.Span.{Span};

/// What is known of the rules stays when the table of terms grows.
pub fn growing_keeps_rules()
    ensures { (old new : Table) → Grows old new → (rs : List S.Rule) (xs : List RuleAt) → AreRules old rs xs → AreRules new rs xs }
{}

/// Pieces are the same by equal words for what the terms of each rule are.
pub fn equal_terms()
    ensures { (closed other : S.Rule → Term → Term) (t : Table) (rs : List S.Rule) (xs : List PieceAt) → ((r : S.Rule) (u : Term) → closed r u ≡ other r u) → ArePieces closed t rs xs → ArePieces other t rs xs }
{}

/// Tokens stand in one part of a text.
pub fn one_span()
    ensures { (ts : List S.Lexeme) (a b : Span) → IsSpan ts a → IsSpan ts b → a ≡ b }
{}
