ghost use Rattle.std.specs.Prelude.{◌≡◌, None, IfOk, OnErr};
ghost use Rattle.gt_pack.specs.Index.{Rises, IsFound, find_in};

use gt_name::Name;

/// Where a record stands in a pack.
#[derive(Clone, Copy, Debug, PartialEq, Eq)]
pub struct Placed {
    /// The record's name.
    pub name: Name,
    /// Where the record begins, in bytes from the file's begin.
    pub place: u64,
    /// The record's length in bytes.
    pub len: u32,
}

/// Place and length of the record of this name, by a binary search.
pub(crate) fn find_in(items: &[Placed], name: &Name) -> Option<(u64, u32)>
    requires { Rises None items.now }
    ensures { result ≡ find_in items.now name.now }
{
    match search(items, name) {
        Ok(at) => Some((items[at].place, items[at].len)),
        Err(_) => None,
    }
}

/// Where the name is, or where it would go.
fn search(items: &[Placed], name: &Name) -> Result<usize, usize>
    requires { Rises None items.now }
    ensures found { IfOk result (IsFound items.now name.now) }
    ensures absent { OnErr result (find_in items.now name.now ≡ None) }
{
    items.binary_search_by_key(name, |item| item.name)
}
