//! The bytes of strings.

ghost use Rattle.std.specs.Prelude.{◌≡◌};
ghost use Rattle.hs_lexer.specs.Bytes.{is_text_byte};

// What stands between the quotes of a string.
#[tactic(auto, unfolding(crate::specs::Bytes::is_text_byte))]
pub(crate) fn is_text_byte(byte: u8) -> bool
    ensures { result ≡ is_text_byte byte }
{
    matches!(byte, 0x20..=0x7e) && byte != b'"' && byte != b'\\'
}
