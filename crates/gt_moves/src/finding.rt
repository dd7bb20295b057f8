// The place of a record, found by its name.
ghost use Rattle.std.specs.Prelude.{◌≡◌, None, IfOk, OnErr};
ghost use Rattle.gt_moves.specs.Moves.{found_in, place_of};
ghost use Rattle.gt_pack.specs.Index.{Rises, IsFound, find_in};

use gt_disk::pack_file;
use gt_name::Name;
use gt_objset::Place;
use gt_pack::Placed;

/// Where the name is, or where it would go, by a binary search.
fn search(items: &[Placed], name: &Name) -> Result<usize, usize>
    requires { Rises None items.now }
    ensures found { IfOk result (IsFound items.now name.now) }
    ensures absent { OnErr result (find_in items.now name.now ≡ None) }
{
    items.binary_search_by_key(name, |item| item.name)
}

/// Place and length of the record of this name; zeros where there is none.
fn find_in(items: &[Placed], name: &Name) -> (u64, u32)
    requires { Rises None items.now }
    ensures { result ≡ found_in items.now name.now }
{
    match search(items, name) {
        Ok(at) => (items[at].place, items[at].len),
        Err(_) => (0, 0),
    }
}

/// Where the record of this name stands, in the pack of this number with records at these places.
pub(crate) fn place_of(number: u64, items: &[Placed], name: &Name) -> Place
    requires { Rises None items.now }
    ensures { result ≡ place_of number items.now name.now }
{
    let (at, len) = find_in(items, name);
    Place {
        file: pack_file(number),
        at,
        len,
    }
}
