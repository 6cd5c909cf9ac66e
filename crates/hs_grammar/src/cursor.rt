//! A cursor over tokens.

ghost use Rattle.std.specs.Prelude.{◌≡◌, ◌+◌, Bool, IsTrue, OnOk, IfErr, List, length, ◌∷◌, []};
ghost use Rattle.hs_grammar.specs.Form.{lexis_of};
ghost use Rattle.hs_grammar.specs.Kinds.{has, starts};
ghost use Rattle.hs_grammar.specs.Parser.{token_of};
ghost use Rattle.hs_grammar.specs.Reads.{Reads, Eats};

use crate::error::ParseError;
use std::marker::Model;

/// A token that is of some kind.
pub trait Lexeme: Copy {
    /// What tokens are told apart by.
    type Kind: Copy;

    /// The kind of a token.
    ghost kind_of: { Self → Self.Kind };

    /// Whether two kinds are one.
    ghost same: { Self.Kind → Self.Kind → Bool };

    /// Whether the token is of this kind.
    fn is(&self, kind: Self::Kind) -> bool
        ensures { result ≡ same kind (kind_of self.now) };
}

/// The tokens that are left. Contracts see the list of them.
#[derive(Drop)]
pub struct Tokens<'a, T> {
    rest: &'a [T],
}

impl<'a, T> Model for Tokens<'a, T> {
    ghost use Rattle.std.specs.Prelude.{List};

    ghost Value = { List T };

    ghost view = { λ t. t.rest.now };
}

impl<'a, T: Lexeme> Tokens<'a, T> {
    /// A cursor before the first of these tokens.
    pub fn new(rest: &'a [T]) -> Tokens<'a, T>
        ensures { result ≡ rest.now }
    {
        Tokens { rest }
    }

    /// How many tokens are left.
    pub fn left(&self) -> usize
        ensures { result ≡ length self.now }
    {
        self.rest.len()
    }

    /// Whether the next token is of this kind.
    pub fn is_at(&self, kind: T::Kind) -> bool
        ensures { result ≡ starts (lexis_of T.kind_of T.same) (kind ∷ []) self.now }
    {
        match self.rest.first() {
            Some(token) => token.is(kind),
            None => false,
        }
    }

    /// Whether the next token is of one of these kinds.
    pub fn is_at_any(&self, kinds: &[T::Kind]) -> bool
        ensures { result ≡ starts (lexis_of T.kind_of T.same) kinds.now self.now }
    {
        match self.rest.first() {
            Some(token) => is_any(token, kinds),
            None => false,
        }
    }

    /// Takes the next token, where it is of this kind, and says whether it was. Else nothing is taken.
    pub fn eat(&mut self, kind: T::Kind) -> bool
        ensures at { result ≡ starts (lexis_of T.kind_of T.same) (kind ∷ []) self.old }
        ensures taken { Eats (lexis_of T.kind_of T.same) (kind ∷ []) self.old result self.new }
        ensures shorter { IsTrue result → length self.old ≡ length self.new + 1 }
    {
        if let [token, rest @ ..] = self.rest
            && token.is(kind)
        {
            self.rest = rest;
            return true;
        }
        false
    }

    /// Takes the next token, which has to be of one of these kinds.
    ///
    /// `Syntax`: it is of another kind, or there is none. Nothing is taken then.
    pub fn expect_any(&mut self, kinds: &[T::Kind]) -> Result<T, ParseError>
        ensures reads { Reads (token_of (lexis_of T.kind_of T.same) kinds.now self.old) result self.new }
        ensures shorter { OnOk result (length self.old ≡ length self.new + 1) }
        ensures refusal { IfErr result (λ error. error ≡ ParseError.Syntax) }
    {
        if let [token, rest @ ..] = self.rest
            && is_any(token, kinds)
        {
            self.rest = rest;
            return Ok(*token);
        }
        Err(ParseError::Syntax)
    }

    /// Takes the next token, which has to be of this kind.
    ///
    /// `Syntax`: it is of another kind, or there is none. Nothing is taken then.
    pub fn expect(&mut self, kind: T::Kind) -> Result<T, ParseError>
        ensures reads { Reads (token_of (lexis_of T.kind_of T.same) (kind ∷ []) self.old) result self.new }
        ensures shorter { OnOk result (length self.old ≡ length self.new + 1) }
        ensures refusal { IfErr result (λ error. error ≡ ParseError.Syntax) }
    {
        if let [token, rest @ ..] = self.rest
            && token.is(kind)
        {
            self.rest = rest;
            return Ok(*token);
        }
        Err(ParseError::Syntax)
    }
}

/// Whether the token is of one of these kinds.
fn is_any<T: Lexeme>(token: &T, kinds: &[T::Kind]) -> bool
    ensures { result ≡ has (lexis_of T.kind_of T.same) kinds.now (T.kind_of token.now) }
{
    for kind in kinds {
        if token.is(*kind) {
            return true;
        }
    }
    false
}
