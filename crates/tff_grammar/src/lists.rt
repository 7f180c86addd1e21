//! Lists with no more room than they need.
ghost use Rattle.std.specs.Prelude.{◌≡◌, [], ◌∷◌, ◌++◌, OnOk};

use sqlite_items::Items;
use std::alloc::AllocError;

/// The length from which a list grows by doubling.
const SHORT: usize = 4;

/// One more member, the last one. A short list gets room for it alone, since most lists of a text stay short.
pub(crate) fn add<T: Drop>(list: &mut Vec<T>, member: T) -> Result<(), AllocError>
    ensures { OnOk result (list.new.items ≡ list.old.items ++ member ∷ []) }
{
    if list.len() < SHORT {
        list.reserve_exact(1)?;
    }
    list.push(member)?;
    Ok(())
}

/// A list that doesn't grow any more, without the room that is left.
pub(crate) fn exact<T: Drop>(list: Vec<T>) -> Items<T>
    ensures { result ≡ list.items }
{
    let mut list = list;
    list.shrink_to_fit();
    Items::from_vec(list)
}
