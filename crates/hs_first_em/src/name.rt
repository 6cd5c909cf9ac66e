//! Names of modules.

ghost use Rattle.std.specs.Prelude.{◌≡◌};
ghost use Rattle.std.specs.List.{list_all};
ghost use Rattle.hs_base.specs.Names as names;
ghost use Rattle.hs_first_em.specs.Spelled.{is_module_name, begins_upper};

use hs_base::spelling::is_word_byte;

/// The longest name of a module, in bytes.
const NAME_BYTES: usize = 64;

// Whether all bytes are letters, digits or `_`.
fn all_word_bytes(bytes: &[u8]) -> bool
    ensures { result ≡ list_all names.is_word_byte bytes.now }
{
    bytes.iter().all(|byte| is_word_byte(*byte))
}

// Whether the first byte is an upper-case letter.
#[tactic(auto, using(crate::proofs::Bytes::upper_range))]
fn begins_with_upper(bytes: &[u8]) -> bool
    ensures { result ≡ begins_upper bytes.now }
{
    match bytes.first() {
        Some(byte) => byte.is_ascii_uppercase(),
        None => false,
    }
}

/// Whether the text is the name of a module: at most 64 letters, digits and `_`, an upper-case letter
/// first, but not `Hs_prelude`. Takes no memory.
pub fn module_name(text: &str) -> bool
    ensures { result ≡ is_module_name text.now }
{
    let bytes = text.as_bytes();
    begins_with_upper(bytes)
        && all_word_bytes(bytes)
        && bytes.len() <= NAME_BYTES
        && text != "Hs_prelude"
}
