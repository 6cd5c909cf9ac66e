//! How methods that only some types have are spelled.

ghost use Rattle.std.specs.Prelude.{◌≡◌, bytes_eq};
ghost use Rattle.hs_typing.specs.Spelled as s;

/// A method of numbers.
#[derive(Clone, Copy)]
pub enum NumberWord {
    RotateLeft,
    RotateRight,
    WrappingAdd,
    WrappingSub,
    WrappingMul,
    Declassify,
    ToLe,
    ToBe,
}

/// A method of sequences, and, but for `push`, of arrays.
#[derive(Clone, Copy)]
pub enum RowWord {
    Len,
    Concat,
    Slice,
    Update,
    NumChunks,
    GetChunk,
    SetChunk,
    Push,
}

/// Whether the bytes are those of the text.
pub fn is(bytes: &[u8], text: &str) -> bool
    ensures { result ≡ bytes_eq bytes.now text.now }
{
    bytes == text.as_bytes()
}

/// The method of numbers that is spelled so.
pub fn number_word(name: &[u8]) -> Option<NumberWord>
    ensures { result ≡ s.listed s.number_words name.now }
{
    if is(name, "rotate_left") {
        Some(NumberWord::RotateLeft)
    } else if is(name, "rotate_right") {
        Some(NumberWord::RotateRight)
    } else if is(name, "wrapping_add") {
        Some(NumberWord::WrappingAdd)
    } else if is(name, "wrapping_sub") {
        Some(NumberWord::WrappingSub)
    } else if is(name, "wrapping_mul") {
        Some(NumberWord::WrappingMul)
    } else if is(name, "declassify") {
        Some(NumberWord::Declassify)
    } else if is(name, "to_le_bytes") {
        Some(NumberWord::ToLe)
    } else if is(name, "to_be_bytes") {
        Some(NumberWord::ToBe)
    } else {
        None
    }
}

/// The method of sequences that is spelled so.
pub fn row_word(name: &[u8]) -> Option<RowWord>
    ensures { result ≡ s.listed s.row_words name.now }
{
    if is(name, "len") {
        Some(RowWord::Len)
    } else if is(name, "concat") {
        Some(RowWord::Concat)
    } else if is(name, "slice") {
        Some(RowWord::Slice)
    } else if is(name, "update") {
        Some(RowWord::Update)
    } else if is(name, "num_chunks") {
        Some(RowWord::NumChunks)
    } else if is(name, "get_chunk") {
        Some(RowWord::GetChunk)
    } else if is(name, "set_chunk") {
        Some(RowWord::SetChunk)
    } else if is(name, "push") {
        Some(RowWord::Push)
    } else {
        None
    }
}
