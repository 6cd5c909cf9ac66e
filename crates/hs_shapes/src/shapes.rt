//! The items of a derived file are well formed.

ghost use Rattle.std.specs.Prelude.{ℕ, List, All};
ghost use Rattle.hs_grammar.specs.Derives.{DerivesAs};
ghost use Rattle.hs_lexer.specs.declared.token.Token.{Token as Spelled};
ghost use Rattle.hs_lexer.specs.Places.{IsName};
ghost use Rattle.hs_syntax.specs.declared.item.Item.{Item};
ghost use Rattle.hs_syntax.specs.WellFormed.{WellFormed};
ghost use Rattle.hs_forms.specs.Reading.{grammar, RFile};
ghost use Rattle.hs_forms.specs.Tokens.{tokens_of};

/// The items that the grammar derives from the tokens of a text are well formed, where a token of a name has a name's bytes.
/// Nothing runs: the clause is what is proved.
pub fn items_are_well_formed()
    ensures { (text : List ℕ) (tokens : List Spelled) (items : List Item) → All (IsName text) tokens → DerivesAs grammar RFile (tokens_of text tokens) items → WellFormed text items }
{}
