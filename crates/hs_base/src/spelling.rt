//! The spelling of words and names.

ghost use Rattle.std.specs.Prelude.{◌≡◌, bytes_eq};
ghost use Rattle.std.specs.List.{list_any, list_all};
ghost use Rattle.hs_base.specs.Names as names;

/// The words that no name is.
const RESERVED: [&str; 51] = [
    "as", "break", "const", "continue", "crate", "else", "enum", "extern", "false", "fn", "for",
    "if", "impl", "in", "let", "loop", "match", "mod", "move", "mut", "pub", "ref", "return",
    "self", "Self", "static", "struct", "super", "trait", "true", "type", "unsafe", "use", "where",
    "while", "async", "await", "dyn", "abstract", "become", "box", "do", "final", "macro",
    "override", "priv", "typeof", "unsized", "virtual", "yield", "try",
];

/// Whether the byte is a letter or `_`, as the first of a name is. Takes no memory.
#[tactic(auto, unfolding(crate::specs::Names::begins_name, crate::specs::Names::is_letter, crate::specs::Names::is_upper))]
pub fn begins_name(byte: u8) -> bool
    ensures { result ≡ names.begins_name byte }
{
    matches!(byte, b'A'..=b'Z' | b'a'..=b'z' | b'_')
}

/// Whether the byte is a letter, a digit or `_`. Takes no memory.
#[tactic(auto, unfolding(crate::specs::Names::is_word_byte, crate::specs::Names::is_digit))]
pub fn is_word_byte(byte: u8) -> bool
    ensures { result ≡ names.is_word_byte byte }
{
    begins_name(byte) || byte.is_ascii_digit()
}

// Whether the list holds the word.
fn is_in(list: &[&str], word: &[u8]) -> bool
    ensures { result ≡ list_any (λ text. bytes_eq word.now text.now) list.now }
{
    list.iter().any(|text| word == text.as_bytes())
}

// Whether all bytes are letters, digits or `_`.
fn all_word_bytes(bytes: &[u8]) -> bool
    ensures { result ≡ list_all names.is_word_byte bytes.now }
{
    bytes.iter().all(|byte| is_word_byte(*byte))
}

/// Whether the word is one of the 51 reserved words. Takes no memory.
#[tactic(auto, unfolding(crate::specs::Names::is_reserved))]
pub fn is_reserved(word: &[u8]) -> bool
    ensures { result ≡ names.is_reserved word.now }
{
    let words: [&str; 51] = RESERVED;
    is_in(&words, word)
}

/// Whether the word is a name: a letter or `_`, then letters, digits and `_`, and neither `_` alone nor a reserved word.
/// Takes no memory.
#[tactic(auto, unfolding(crate::specs::Names::is_name))]
pub fn is_name(word: &[u8]) -> bool
    ensures { result ≡ names.is_name word.now }
{
    match word {
        [] | [b'_'] => false,
        [first, rest @ ..] => { begins_name(*first) && all_word_bytes(rest) && !is_reserved(word) }
    }
}
