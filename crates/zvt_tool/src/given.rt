//! The values of options in parsed arguments.
ghost use Rattle.std.specs.Prelude.{◌≡◌, IfOk, map, option_map};
ghost use Rattle.clap.specs.Words.{first_of, found_of, rows_of};
ghost use Rattle.zvt_tool.specs.Given.{IsFlagOf, IsNumberOf, words_of};

use clap::ArgMatches;
use std::alloc::{AllocError, Global};

/// Returns the number given for the option with this name.
pub fn number(inner: &ArgMatches<'_>, id: &str) -> Option<u16>
    ensures { IsNumberOf id.now (rows_of (found_of inner.now)) 65535 result }
{
    inner.get_one::<u16>(id)
}

/// Returns the text given for the option with this name.
pub fn text<'a>(inner: &ArgMatches<'a>, id: &str) -> Option<&'a str>
    ensures { option_map (λ text. text.now) result ≡ first_of id.now (rows_of (found_of inner.now)) }
{
    inner.get_str(id)
}

/// Returns whether the flag with this name is set.
pub fn flag(inner: &ArgMatches<'_>, id: &str) -> bool
    ensures { IsFlagOf id.now (rows_of (found_of inner.now)) result }
{
    inner.get_flag(id)
}

/// Returns the words given for the argument with this name, in order.
pub fn words<'a>(
    alloc: Global,
    inner: &ArgMatches<'a>,
    id: &str,
) -> Result<Vec<&'a str>, AllocError>
    ensures { IfOk result (λ words. map (λ word. word.now) words.items ≡ words_of id.now
        (rows_of (found_of inner.now))) }
{
    match inner.get_strs(id) {
        Some(words) => Vec::from_slice(alloc, words),
        None => Ok(Vec::new(alloc)),
    }
}
