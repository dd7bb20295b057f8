ghost use Rattle.std.specs.Prelude.{◌≡◌, codes};
ghost use Rattle.gt_slots.specs.Pages.{probe, is_before};

/// Whether a name comes before a text, or before the text and a slash behind it.
pub(crate) fn is_before(name: &[u8], text: &[u8], slash: bool) -> bool
    ensures { result ≡ is_before name.now (probe text.now slash) }
{
    if !slash {
        return name.cmp(text).is_lt();
    }
    if name.starts_with(text) {
        rest_is_before(&name[text.len()..])
    } else {
        name.cmp(text).is_lt()
    }
}

/// Whether the rest of a name comes before a slash.
fn rest_is_before(rest: &[u8]) -> bool
    ensures { result ≡ is_before rest.now (codes "/") }
{
    match rest.first() {
        None => true,
        Some(byte) => *byte < b'/',
    }
}
