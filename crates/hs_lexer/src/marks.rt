//! Marks.

ghost use Rattle.std.specs.Prelude.{◌≡◌};
ghost use Rattle.hs_lexer.specs.Marks.{is_one_of, punctuation, operators, assignments, pairs, is_mark};

// Whether the bytes are a mark of one byte that is no operator.
fn is_punctuation(bytes: &[u8]) -> bool
    ensures { result ≡ is_one_of punctuation bytes.now }
{
    matches!(
        bytes,
        b"(" | b")" | b"[" | b"]" | b"{" | b"}" | b"," | b";" | b":" | b"." | b"?" | b"#" | b"_"
    )
}

// Whether the bytes are an operator of one byte.
fn is_operator(bytes: &[u8]) -> bool
    ensures { result ≡ is_one_of operators bytes.now }
{
    matches!(
        bytes,
        b"=" | b"<" | b">" | b"+" | b"-" | b"*" | b"/" | b"%" | b"&" | b"|" | b"^" | b"!"
    )
}

// Whether the bytes are a mark of two bytes that ends in `=`.
fn is_assignment(bytes: &[u8]) -> bool
    ensures { result ≡ is_one_of assignments bytes.now }
{
    matches!(
        bytes,
        b"=="
            | b"!="
            | b"<="
            | b">="
            | b"+="
            | b"-="
            | b"*="
            | b"/="
            | b"%="
            | b"&="
            | b"|="
            | b"^="
    )
}

// Whether the bytes are another mark of two or three bytes.
fn is_pair(bytes: &[u8]) -> bool
    ensures { result ≡ is_one_of pairs bytes.now }
{
    matches!(
        bytes,
        b"::" | b".." | b"->" | b"=>" | b"&&" | b"||" | b"<<" | b">>" | b"<<=" | b">>="
    )
}

/// Whether the bytes are one of the 47 marks.
#[tactic(auto, unfolding(crate::specs::Marks::is_mark))]
pub(crate) fn is_mark(bytes: &[u8]) -> bool
    ensures { result ≡ is_mark bytes.now }
{
    is_punctuation(bytes) || is_operator(bytes) || is_assignment(bytes) || is_pair(bytes)
}
