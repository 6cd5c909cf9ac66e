//! Where the nodes of a derived file lie.

ghost use Rattle.std.specs.Prelude.{ℕ, List};
ghost use Rattle.hs_grammar.specs.Derives.{DerivesAs};
ghost use Rattle.hs_lexer.specs.declared.token.Token.{Token as Spelled};
ghost use Rattle.hs_lexer.specs.Places.{Placed};
ghost use Rattle.hs_syntax.specs.declared.item.Item.{Item};
ghost use Rattle.hs_forms.specs.declared.token.Token.{Token};
ghost use Rattle.hs_forms.specs.Reading.{grammar, RFile};
ghost use Rattle.hs_forms.specs.Tokens.{tokens_of};
ghost use Rattle.hs_limits.specs.Nested.{Nested};
ghost use Rattle.hs_limits.specs.Nodes.{outline_of_items};
ghost use Rattle.hs_places.specs.Spaced.{Spaced};

use hs_limits::spans_agree;

/// The items that the grammar derives have their nodes where they stand in the text. Nothing runs: the clauses are what is proved.
///
/// - `spaced`: where the tokens of a text stand one behind the other, so do those that the grammar sees, of which the halves of a
///   `>>` have the same bytes.
/// - `nested`: nodes of the items of a file that are derived from such tokens lie between the same two places. Each has a byte at least, its
///   parts lie in it, and one behind the other.
pub fn nodes_are_nested()
    ensures spaced { (text : List ℕ) (tokens : List Spelled) (low high : ℕ) → Placed low high tokens → Spaced low high (tokens_of text tokens) }
    ensures nested { (w : List Token) (x : List Item) (low high : ℕ) → DerivesAs grammar RFile w x → Spaced low high w → Nested (outline_of_items x) low high }
{
    spans_agree();
}
