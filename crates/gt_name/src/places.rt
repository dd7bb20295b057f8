ghost use Rattle.std.specs.Prelude.{◌≡◌, ◌&&◌, ◌∷◌, Some, None, if◌then◌else◌, codes, nat_eq};
ghost use Rattle.std.specs.List.{starts_with};
ghost use Rattle.gt_name.specs.declared.component.ComponentFault.TheVariants.{Empty, BeginsWithDot, EndsWithLock};
ghost use Rattle.gt_name.specs.Broken.{or_else};
ghost use Rattle.gt_name.specs.Components.{component, has_fault};
ghost use Rattle.gt_name.specs.References.{is_forbidden, ref_byte, ref_empty, ref_dot, ref_dots, ref_brace, ref_lock};

use crate::component::{ComponentFault, component, has_fault};

/// The first place where a text breaks each rule of a reference's name that a scan finds out.
#[derive(Clone, Copy, Debug)]
pub(crate) struct FirstPlaces {
    pub(crate) byte: Option<usize>,
    pub(crate) empty: Option<usize>,
    pub(crate) dot: Option<usize>,
    pub(crate) dots: Option<usize>,
    pub(crate) brace: Option<usize>,
    pub(crate) lock: Option<usize>,
}

/// One place more: the first that was found stays.
fn noted(found: Option<usize>, here: bool, at: usize) -> Option<usize>
    ensures { result ≡ or_else found (if here then Some at else None) }
{
    found.or(here.then_some(at))
}

fn is_forbidden(byte: u8) -> bool
    ensures { result ≡ is_forbidden byte }
{
    matches!(
        byte,
        0..=31 | 127 | b' ' | b'~' | b'^' | b':' | b'?' | b'*' | b'[' | b'\\'
    )
}

impl FirstPlaces {
    /// With what the byte at this place, and those after it, break.
    fn and_byte(self, at: usize, byte: u8, rest: &[u8]) -> FirstPlaces
        ensures byte { result.byte ≡ or_else self.byte (if is_forbidden byte then Some at else None) }
        ensures dots { let here = starts_with nat_eq rest.now (codes "..") in
            result.dots ≡ or_else self.dots (if here then Some at else None) }
        ensures brace { let here = starts_with nat_eq rest.now (codes "@{") in
            result.brace ≡ or_else self.brace (if here then Some at else None) }
        ensures empty { result.empty ≡ self.empty }
        ensures dot { result.dot ≡ self.dot }
        ensures lock { result.lock ≡ self.lock }
    {
        FirstPlaces {
            byte: noted(self.byte, is_forbidden(byte), at),
            dots: noted(self.dots, rest.starts_with(b".."), at),
            brace: noted(self.brace, rest.starts_with(b"@{"), at),
            ..self
        }
    }

    /// With what the component that begins at this place breaks, if one begins there.
    fn and_component(self, at: usize, begins: bool, rest: &[u8]) -> FirstPlaces
        ensures empty { let here = begins && has_fault Empty (component rest.now) in
            result.empty ≡ or_else self.empty (if here then Some at else None) }
        ensures dot { let here = begins && has_fault BeginsWithDot (component rest.now) in
            result.dot ≡ or_else self.dot (if here then Some at else None) }
        ensures lock { let here = begins && has_fault EndsWithLock (component rest.now) in
            result.lock ≡ or_else self.lock (if here then Some at else None) }
        ensures byte { result.byte ≡ self.byte }
        ensures dots { result.dots ≡ self.dots }
        ensures brace { result.brace ≡ self.brace }
    {
        if !begins {
            return self;
        }
        let component = component(rest);
        FirstPlaces {
            empty: noted(self.empty, has_fault(ComponentFault::Empty, component), at),
            dot: noted(
                self.dot,
                has_fault(ComponentFault::BeginsWithDot, component),
                at,
            ),
            lock: noted(
                self.lock,
                has_fault(ComponentFault::EndsWithLock, component),
                at,
            ),
            ..self
        }
    }
}

/// Scans a text once.
pub(crate) fn first_places(text: &[u8]) -> FirstPlaces
    ensures byte { result.byte ≡ ref_byte text.now }
    ensures empty { result.empty ≡ ref_empty text.now }
    ensures dot { result.dot ≡ ref_dot text.now }
    ensures dots { result.dots ≡ ref_dots text.now }
    ensures brace { result.brace ≡ ref_brace text.now }
    ensures lock { result.lock ≡ ref_lock text.now }
{
    let mut found = FirstPlaces {
        byte: None,
        empty: None,
        dot: None,
        dots: None,
        brace: None,
        lock: None,
    };
    let mut begins = true;
    for (at, byte) in text.iter().enumerate() {
        let rest = &text[at..];
        found = found
            .and_byte(at, *byte, rest)
            .and_component(at, begins, rest);
        begins = *byte == b'/';
    }
    found.and_component(text.len(), begins, &[])
}
