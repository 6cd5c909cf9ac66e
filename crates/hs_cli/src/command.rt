//! What the words ask.

ghost use Rattle.std.specs.Prelude.{◌≡◌, ℕ, List, map, string_bytes, option_map};
ghost use Rattle.hs_cli.specs.Command.{dialect_of, print_of, command_of};
ghost use Rattle.hs_cli.specs.Asked.{asked_by};

use hs_first_em::name::module_name;

/// The dialects of printed modules.
#[derive(Clone, Copy, Debug, PartialEq, Eq)]
pub enum Dialect {
    /// F*.
    FStar,
}

/// What the words ask, one variant for each command.
#[derive(Clone, Copy, Debug)]
pub(crate) enum Command<'a> {
    /// The module of a name, in a dialect, for the program of a file.
    Print {
        dialect: Dialect,
        module_name: &'a str,
        file: &'a str,
    },
}

// The dialect of a word, where it is one's.
fn read_dialect(word: &str) -> Option<Dialect>
    ensures { result ≡ dialect_of word.now }
{
    if word == "fstar" {
        Some(Dialect::FStar)
    } else {
        None
    }
}

// What the words behind `print` ask, where they match its form.
fn read_print<'a>(dialect: &str, name: &'a str, file: &'a str) -> Option<Command<'a>>
    ensures { option_map asked_by result ≡ print_of (dialect_of dialect.now) name.now file.now }
{
    let dialect = read_dialect(dialect)?;
    if !module_name(name) {
        return None;
    }
    Some(Command::Print {
        dialect,
        module_name: name,
        file,
    })
}

/// What the words ask, where they match a form.
pub(crate) fn read_command(words: &[String]) -> Option<Command>
    ensures { option_map asked_by result ≡ command_of (map string_bytes words.now) }
{
    let [command, dialect, name, file] = words else {
        return None;
    };
    if command.as_str() != "print" {
        return None;
    }
    read_print(dialect.as_str(), name.as_str(), file.as_str())
}
