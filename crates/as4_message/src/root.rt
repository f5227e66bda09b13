//! The unit that the root of a package means.
ghost use Rattle.std.specs.Prelude.{◌≡◌, ◌<◌, Ok, Err, IfOk, length};
ghost use Rattle.tree_reader.specs.Documents.{limit};
ghost use Rattle.as4_message.specs.Meaning.{RootMeans};

use crate::error_codes::{INVALID_HEADER, NOT_SUPPORTED};
use as4_values::{NoMemory, Unit};
use header_reader::{HeaderRefusal, read_unit};
use std::alloc::Global;
use tree_reader::{TreeRefusal, read_tree};

/// Reads the unit of an envelope, or returns the code of the error that refuses it.
pub(crate) fn read_root(alloc: Global, root: &[u8]) -> Result<Result<Unit, u16>, NoMemory>
    ensures meaning { IfOk result (RootMeans root.now) }
    ensures too_long { limit < length root.now → result ≡ Ok (Err INVALID_HEADER) }
{
    let tree = match read_tree(alloc, root) {
        Ok(tree) => tree,
        Err(TreeRefusal::NoMemory) => return Err(NoMemory),
        Err(TreeRefusal::TooLong) => return Ok(Err(INVALID_HEADER)),
        Err(TreeRefusal::Markup { .. }) => return Ok(Err(INVALID_HEADER)),
        Err(TreeRefusal::TooDeep { .. }) => return Ok(Err(INVALID_HEADER)),
    };
    let unit = read_unit(alloc, &tree);
    drop(tree);
    match unit {
        Ok(unit) => Ok(Ok(unit)),
        Err(HeaderRefusal::Invalid) => Ok(Err(INVALID_HEADER)),
        Err(HeaderRefusal::Unsupported) => Ok(Err(NOT_SUPPORTED)),
        Err(HeaderRefusal::NoMemory) => Err(NoMemory),
    }
}
