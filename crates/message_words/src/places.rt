//! Places of warnings.
ghost use Rattle.std.specs.Prelude.{◌≡◌, ◌++◌, [], OnOk};
ghost use Rattle.message_words.specs.OnPages.{place_first};

use std::alloc::AllocError;

/// Adds a place, if it is one. The error says that memory was refused.
pub(crate) fn add_place(places: &mut Vec<usize>, is: bool, at: usize) -> Result<(), AllocError>
    ensures { OnOk result (places.new.items ≡ places.old.items ++ place_first is at []) }
{
    if is {
        places.push(at)?;
    }
    Ok(())
}
