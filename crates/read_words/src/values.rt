//! The values of the words of `read`.
ghost use Rattle.std.specs.Prelude.{◌≡◌, MatchResult, None, Some};
ghost use Rattle.clap.specs.Words.{found_of, rows_of};
ghost use Rattle.read_words.specs.Values.{read_values_in};

use clap::ArgMatches;
use clap_lines::{OrderFault, copy_word, number_in, user_in, word_in};
use hk_base::Text;
use std::alloc::Global;

/// The values of the words of `read`.
#[derive(Drop)]
pub struct ReadValues {
    /// Who reads, of 1 to 255 bytes.
    pub user: Text,
    /// The path of the file, as given.
    pub path: Text,
    /// The first byte of the range, below 2^63.
    pub from: u64,
    /// The number of its bytes, below 2^63.
    pub count: u64,
}

/// Returns the values of `read`. Fails with `Usage` exactly if one is missing or out of its bounds, and with
/// `NoMemory` if there is no memory for the user or the path.
pub fn read_values_in(alloc: Global, values: &ArgMatches) -> Result<ReadValues, OrderFault>
    ensures { MatchResult result
        (λ read. read_values_in (rows_of (found_of values.now)) ≡ Some read)
        (λ fault. fault ≡ OrderFault.Usage →
        read_values_in (rows_of (found_of values.now)) ≡ None) }
{
    let Some(user) = user_in(values) else {
        return Err(OrderFault::Usage);
    };
    let Some(path) = word_in(values, "path") else {
        return Err(OrderFault::Usage);
    };
    let Some(from) = number_in(values, "from") else {
        return Err(OrderFault::Usage);
    };
    let Some(count) = number_in(values, "count") else {
        return Err(OrderFault::Usage);
    };
    let user = copy_word(alloc, user)?;
    let path = copy_word(alloc, path)?;
    Ok(ReadValues {
        user,
        path,
        from,
        count,
    })
}
