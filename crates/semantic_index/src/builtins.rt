// builtins.rs: the built-in function names.
ghost use Rattle.std.specs.Prelude.{◌≡◌};
ghost use Rattle.model.specs.Lookups.{is_builtin_function_name};
ghost use Rattle.records.specs.Meaning.{name_of};

use records::Name;

pub fn is_builtin_function_name(file: &[u8], name: Name) -> bool
    ensures { result ≡ is_builtin_function_name (name_of file.now name) }
{
    crate::names::is_text(file, name, b"assert")
}
