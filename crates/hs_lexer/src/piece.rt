//! What begins at a place of a text.

ghost use Rattle.std.specs.Prelude.{◌≡◌, ◌≤◌, ◌+◌, ◌<◌, length, IfOk, OnOk, IfSome, Option, Some, None};
ghost use Rattle.std.specs.List.{prefix_len};
ghost use Rattle.hs_base.specs.Names as names;
ghost use Rattle.hs_base.specs.Positions.{is_in_line};
ghost use Rattle.hs_lexer.specs.Bytes as class;
ghost use Rattle.hs_lexer.specs.Pieces.{gap, spelling, spelled, kind_of_word, kind_of_name, word_at, string_before, longest_front, mark_at, spelling_at, closed_after, comment_before, piece_at};

use crate::bytes::is_text_byte;
use crate::marks::is_mark;
use crate::number::integer_of;
use crate::token::TokenKind;
use hs_base::rule::Rule;
use hs_base::spelling::{is_reserved, is_word_byte};

/// A blank, a comment or a spelling: its kind, which gaps have not, and how many bytes it has.
#[derive(Clone, Copy, Debug)]
pub(crate) struct Piece {
    pub(crate) kind: Option<TokenKind>,
    pub(crate) length: usize,
}

impl Piece {
    fn gap(length: usize) -> Piece
        ensures { result ≡ gap length }
    {
        Piece { kind: None, length }
    }

    fn spelling(kind: TokenKind, length: usize) -> Piece
        ensures { result ≡ spelling kind length }
    {
        Piece {
            kind: Some(kind),
            length,
        }
    }
}

#[tactic(auto, unfolding(hs_base::specs::Positions::is_in_line))]
fn line_length(rest: &[u8]) -> usize
    ensures value { result ≡ prefix_len is_in_line rest.now }
    ensures within { result ≤ length rest.now }
{
    rest.iter().take_while(|byte| **byte != b'\n').count()
}

fn word_length(rest: &[u8]) -> usize
    ensures value { result ≡ prefix_len names.is_word_byte rest.now }
    ensures within { result ≤ length rest.now }
{
    rest.iter().take_while(|byte| is_word_byte(**byte)).count()
}

fn text_length(rest: &[u8]) -> usize
    ensures value { result ≡ prefix_len class.is_text_byte rest.now }
    ensures within { result ≤ length rest.now }
{
    rest.iter().take_while(|byte| is_text_byte(**byte)).count()
}

// How many bytes there are up to the end of the comment that is open.
#[tactic(auto, unfolding(crate::specs::Pieces::closed_after))]
fn closed_after(inside: &[u8]) -> Option<usize>
    ensures value { result ≡ closed_after 0 inside.now }
    ensures within { IfSome result (λ n. n ≤ length inside.now) }
{
    let mut depth: usize = 0;
    let mut at: usize = 0;
    while at + 1 < inside.len() {
        match (inside[at], inside[at + 1]) {
            (b'/', b'*') => {
                depth += 1;
                at += 2;
            }
            (b'*', b'/') => {
                at += 2;
                if depth == 0 {
                    return Some(at);
                }
                depth -= 1;
            }
            _ => at += 1,
        }
    }
    None
}

#[tactic(auto, unfolding(crate::specs::Pieces::comment_before))]
fn comment_before(inside: &[u8]) -> Result<Piece, Rule>
    ensures piece { result ≡ comment_before inside.now }
    ensures within { IfOk result (λ p. p.length ≤ length inside.now + 2) }
    ensures some { IfOk result (λ p. 2 ≤ p.length) }
{
    match closed_after(inside) {
        Some(length) => Ok(Piece::gap(length + 2)),
        None => Err(Rule::X2),
    }
}

#[tactic(auto, unfolding(crate::specs::Pieces::string_before))]
fn string_before(inside: &[u8]) -> Result<Piece, Rule>
    ensures piece { result ≡ string_before inside.now }
    ensures within { IfOk result (λ p. p.length ≤ length inside.now + 1) }
    ensures some { IfOk result (λ p. 2 ≤ p.length) }
{
    let length = text_length(inside);
    match inside.get(length) {
        Some(b'"') => Ok(Piece::spelling(TokenKind::Text, length + 2)),
        _ => Err(Rule::X1),
    }
}

#[tactic(auto, unfolding(crate::specs::Pieces::kind_of_name))]
fn kind_of_name(word: &[u8]) -> Result<TokenKind, Rule>
    ensures { result ≡ kind_of_name word.now }
{
    if matches!(word, b"_") {
        Ok(TokenKind::Mark)
    } else if is_reserved(word) {
        Ok(TokenKind::Reserved)
    } else if word.len() <= 64 {
        Ok(TokenKind::Name)
    } else {
        Err(Rule::S9)
    }
}

#[tactic(auto, unfolding(crate::specs::Pieces::kind_of_word, hs_base::specs::Names::is_digit))]
fn kind_of_word(word: &[u8]) -> Result<TokenKind, Rule>
    ensures kind { result ≡ kind_of_word word.now }
    ensures some { OnOk result (0 < length word.now) }
{
    match word {
        [] => Err(Rule::X1),
        [b'0'..=b'9', ..] => integer_of(word),
        _ => kind_of_name(word),
    }
}

#[tactic(auto, unfolding(crate::specs::Pieces::word_at))]
fn word_at(rest: &[u8]) -> Result<Piece, Rule>
    ensures piece { result ≡ word_at rest.now }
    ensures within { IfOk result (λ p. p.length ≤ length rest.now) }
    ensures some { IfOk result (λ p. 0 < p.length) }
{
    let length = word_length(rest);
    let kind = kind_of_word(&rest[..length])?;
    Ok(Piece::spelling(kind, length))
}

#[tactic(auto, unfolding(crate::specs::Pieces::mark_at))]
fn mark_at(rest: &[u8]) -> Result<Piece, Rule>
    ensures piece { result ≡ mark_at rest.now }
    ensures within { IfOk result (λ p. p.length ≤ length rest.now) }
    ensures some { IfOk result (λ p. 0 < p.length) }
{
    if rest.len() >= 3 && is_mark(&rest[..3]) {
        Ok(Piece::spelling(TokenKind::Mark, 3))
    } else if rest.len() >= 2 && is_mark(&rest[..2]) {
        Ok(Piece::spelling(TokenKind::Mark, 2))
    } else if rest.len() >= 1 && is_mark(&rest[..1]) {
        Ok(Piece::spelling(TokenKind::Mark, 1))
    } else {
        Err(Rule::X1)
    }
}

#[tactic(auto, unfolding(crate::specs::Pieces::spelling_at))]
fn spelling_at(rest: &[u8]) -> Result<Piece, Rule>
    ensures piece { result ≡ spelling_at rest.now }
    ensures within { IfOk result (λ p. p.length ≤ length rest.now) }
    ensures some { IfOk result (λ p. 0 < p.length) }
{
    match rest {
        [] => Err(Rule::X1),
        [first, ..] if is_word_byte(*first) => word_at(rest),
        [_, ..] => mark_at(rest),
    }
}

/// The piece that begins a text, or the rule that is broken there.
#[tactic(auto, unfolding(crate::specs::Pieces::piece_at, crate::specs::Bytes::is_blank))]
pub(crate) fn piece_at(rest: &[u8]) -> Result<Piece, Rule>
    ensures piece { result ≡ piece_at rest.now }
    ensures within { IfOk result (λ p. p.length ≤ length rest.now) }
    ensures some { IfOk result (λ p. 0 < p.length) }
{
    match rest {
        [] => Err(Rule::X1),
        [b' ' | b'\t' | b'\r' | b'\n', ..] => Ok(Piece::gap(1)),
        [b'/', b'/', line @ ..] => Ok(Piece::gap(line_length(line) + 2)),
        [b'/', b'*', inside @ ..] => comment_before(inside),
        [b'"', inside @ ..] => string_before(inside),
        _ => spelling_at(rest),
    }
}
