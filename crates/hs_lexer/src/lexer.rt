//! The tokens of a text.

ghost use Rattle.std.specs.Prelude.{◌≡◌, ◌⊎◌, ◌+◌, ◌<◌, ◌≤◌, List, [], ◌++◌, length, take, drop, All, IfOk, IfErr};
ghost use Rattle.hs_base.specs.Positions.{told_at};
ghost use Rattle.hs_base.specs.declared.place.Broken.{Broken};
ghost use Rattle.hs_lexer.specs.declared.token.Token.{Token};
ghost use Rattle.hs_lexer.specs.declared.piece.Piece.{Piece};
ghost use Rattle.hs_lexer.specs.Pieces.{piece_at};
ghost use Rattle.hs_lexer.specs.Spellings.{IsLongest};
ghost use Rattle.hs_lexer.specs.Lexes.{Lexes, LexBreak, token_before};
ghost use Rattle.hs_lexer.specs.Places.{Placed, IsNamed, IsName};

use crate::piece::piece_at;
use crate::token::{Token, Tokens};
use hs_base::place::{Broken, Stop};
use hs_base::rule::Rule;
use std::alloc::Global;

/// The greatest length of a text, in bytes.
const MOST_BYTES: usize = 262_144;

/// The tokens that a text spells, in order.
///
/// Blanks are space, tab, carriage return and line feed. A comment is `//` up to a line feed or the end, or `/*` up to its
/// `*/`; block comments nest, and comments hold any bytes. Between them stand spellings, each the longest that begins at
/// its place: names, reserved words, integers, strings and marks.
///
/// The answer is `Broken` exactly where the text is longer than 262,144 bytes (S1, told at the first byte), or where a
/// piece of it breaks a rule; the first such piece is told, at its first byte, with the least rule that it breaks: a byte
/// that begins no token (X1), a block comment that is not closed (X2), an integer without a digit (X3), with a bad ending
/// (X4), above 2^128 - 1 (X5) or too great for its suffix (X6), or a name of more than 64 bytes (S9). Columns count bytes.
/// `NoMemory` comes only for want of memory, and of a text that is too long never.
pub fn lex(alloc: Global, bytes: &[u8]) -> Result<Tokens, Stop>
    ensures tokens { IfOk result (λ tokens. Lexes bytes.now tokens) }
    ensures broken { IfErr result (λ stop. (b : Broken) → stop ≡ Stop.Broken b → LexBreak bytes.now b) }
    ensures too_long { 262144 < length bytes.now → result ≡ Err (Stop.Broken (told_at bytes.now Rule.S1 0)) }
    ensures only_tokens { (tokens : List Token) → Lexes bytes.now tokens → (result ≡ Ok tokens) ⊎ (result ≡ Err Stop.NoMemory) }
    ensures only_break { (b : Broken) → LexBreak bytes.now b → (result ≡ Err (Stop.Broken b)) ⊎ (result ≡ Err Stop.NoMemory) }
    ensures apart { (tokens : List Token) (b : Broken) → Lexes bytes.now tokens → LexBreak bytes.now b → ⊥ }
    ensures placed { IfOk result (λ tokens. Placed 0 (length bytes.now) tokens) }
    ensures named { IfOk result (λ tokens. All (IsNamed bytes.now) tokens) }
    ensures names { IfOk result (λ tokens. All (IsName bytes.now) tokens) }
    ensures longest { IfOk result (λ tokens. All (IsLongest bytes.now) tokens) }
    ensures one { (tokens others : List Token) → Lexes bytes.now tokens → Lexes bytes.now others → tokens ≡ others }
{
    if bytes.len() > MOST_BYTES {
        return Err(Stop::Broken(Broken::told_at(bytes, Rule::S1, 0)));
    }
    read_pieces(alloc, bytes)
}

// The tokens of a text that is not too long.
fn read_pieces(alloc: Global, bytes: &[u8]) -> Result<Tokens, Stop>
    requires { length bytes.now ≤ 262144 }
    ensures tokens { IfOk result (λ tokens. Lexes bytes.now tokens) }
    ensures placed { IfOk result (λ tokens. Placed 0 (length bytes.now) tokens) }
    ensures broken { IfErr result (λ stop. (b : Broken) → stop ≡ Stop.Broken b → LexBreak bytes.now b) }
{
    let mut tokens = Tokens::new(alloc);
    let mut at: usize = 0;
    while at < bytes.len() {
        at = read_piece(bytes, at, &mut tokens)?;
    }
    Ok(tokens)
}

// Reads the piece at a place, and gives the place behind it.
fn read_piece(bytes: &[u8], at: usize, tokens: &mut Tokens) -> Result<usize, Stop>
    requires short { length bytes.now ≤ 262144 }
    requires within { at < length bytes.now }
    ensures piece { IfOk result (λ end. (p : Piece) × (piece_at (drop at bytes.now) ≡ Ok p) × (end ≡ at + p.length) × (end ≤ length bytes.now) × (at < end) × (tokens.new ≡ tokens.old ++ token_before at p.length p.kind [])) }
    ensures broken { IfErr result (λ stop. (b : Broken) → stop ≡ Stop.Broken b → (piece_at (drop at bytes.now) ≡ Err b.rule) × (b ≡ told_at bytes.now b.rule at)) }
{
    let piece = match piece_at(&bytes[at..]) {
        Ok(piece) => piece,
        Err(rule) => return Err(Stop::Broken(Broken::told_at(bytes, rule, at))),
    };
    let end = at + piece.length;
    if let Some(kind) = piece.kind {
        tokens.push(Token {
            kind,
            start: at as u32,
            end: end as u32,
        })?;
    }
    Ok(end)
}
