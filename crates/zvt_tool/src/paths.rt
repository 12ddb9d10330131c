//! Command lines that name a file and no command.
ghost use Rattle.std.specs.Prelude.{◌≡◌, IfOk, map};
ghost use Rattle.zvt_tool.specs.Paths.{is_path, with_show};

use std::alloc::{AllocError, Global};

/// Inserts the command `show` if the first argument is a path, so that `zvt day.trace` shows the file. `arguments`
/// begins with the program's name.
pub fn with_show<'a>(alloc: Global, arguments: &[&'a str]) -> Result<Vec<&'a str>, AllocError>
    ensures { IfOk result (λ words. map (λ word. word.now) words.items ≡ with_show
        (map (λ argument. argument.now) arguments.now)) }
{
    let mut words = Vec::from_slice(alloc, arguments)?;
    if let [_, first, ..] = arguments {
        if is_path(first) {
            words.insert(1, "show")?;
        }
    }
    Ok(words)
}

/// Returns whether the argument is a path: it contains a dot or a slash, and is not an option.
fn is_path(argument: &str) -> bool
    ensures { result ≡ is_path argument.now }
{
    match argument.as_bytes() {
        [b'-', ..] => false,
        bytes => bytes.contains(&b'.') || bytes.contains(&b'/'),
    }
}
