ghost use Rattle.std.specs.Prelude.{◌≡◌, []};

use sqlite_items::Items;
use std::alloc::Global;

/// An empty list. It has room for so many members at once, unless there is no memory for these.
pub fn with_room<T>(alloc: Global, count: usize) -> Items<T>
    ensures { result ≡ [] }
{
    match Vec::with_capacity(alloc, count) {
        Ok(list) => Items::from_vec(list),
        Err(_) => Items::new(alloc),
    }
}

/// An empty list with room for so many members, or for 16 where they are more: a number that was read may be a wrong one.
pub(crate) fn with_some_room<T>(alloc: Global, count: u32) -> Items<T>
    ensures { result ≡ [] }
{
    with_room(alloc, count.min(16) as usize)
}
