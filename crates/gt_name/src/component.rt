ghost use Rattle.std.specs.Prelude.{◌≡◌, position};
ghost use Rattle.gt_name.specs.Components.{component, is_slash, has_fault, faulty_component};

/// What may be wrong with a component of a path or of a reference's name.
#[derive(Clone, Copy, Debug, PartialEq, Eq)]
pub enum ComponentFault {
    /// It is empty, `.` or `..`.
    Improper,
    /// It is empty.
    Empty,
    /// It begins with a dot.
    BeginsWithDot,
    /// It ends with `.lock`.
    EndsWithLock,
}

fn first_slash(rest: &[u8]) -> Option<usize>
    ensures { result ≡ position is_slash rest.now }
{
    rest.iter().position(|b| *b == b'/')
}

/// The component that begins here: the bytes up to the first slash.
pub(crate) fn component(rest: &[u8]) -> &[u8]
    ensures { result.now ≡ component rest.now }
{
    let end = first_slash(rest).unwrap_or(rest.len());
    &rest[..end]
}

pub(crate) fn has_fault(fault: ComponentFault, component: &[u8]) -> bool
    ensures { result ≡ has_fault fault component.now }
{
    match fault {
        ComponentFault::Improper => component.is_empty()
            || component == b".".as_slice()
            || component == b"..".as_slice(),
        ComponentFault::Empty => component.is_empty(),
        ComponentFault::BeginsWithDot => component.starts_with(b"."),
        ComponentFault::EndsWithLock => component.ends_with(b".lock"),
    }
}

/// The place where the first component with this fault begins.
pub(crate) fn faulty_component(fault: ComponentFault, text: &[u8]) -> Option<usize>
    ensures { result ≡ faulty_component fault text.now }
{
    let mut begins = true;
    for (at, byte) in text.iter().enumerate() {
        if begins && has_fault(fault, component(&text[at..])) {
            return Some(at);
        }
        begins = *byte == b'/';
    }
    if begins && has_fault(fault, &[]) {
        Some(text.len())
    } else {
        None
    }
}
