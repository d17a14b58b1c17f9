// Libraries whose kinds have names.
ghost use Rattle.std.specs.Prelude.{◌≡◌, ℕ, ◌<◌, ◌≤◌, List, length, Some, Option, position};
ghost use Rattle.std.specs.Str.{bytes_eq};

use crate::library::BlockLibrary;

pub trait NamedLibrary: BlockLibrary {
    // The kind of each name, given by its bytes.
    ghost named: { Self → List ℕ → Option ℕ };

    // The kind of that name, if there is one.
    fn find(&self, name: &[u8]) -> Option<u16>
        ensures { result ≡ named self.now name.now };

    // A kind that is found by its name is a known kind.
    ghost known: { (s : Self) (name : List ℕ) (k : ℕ) → named s name ≡ Some k → k < Self.BlockLibrary.size s };
}

// Whether a name is this text, byte by byte: `==`, with what it says of the bytes.
pub fn is_name(name: &[u8], text: &[u8]) -> bool
    ensures { result ≡ bytes_eq name.now text.now }
{
    name == text
}

// The place of the first of these names that is the one sought.
fn place_of(names: &[&[u8]], sought: &[u8]) -> Option<usize>
    ensures { result ≡ position (λ name. bytes_eq sought.now name.now) names.now }
{
    names.iter().position(|name| is_name(sought, name))
}

// The kind of that name, where the kinds have these names, in order.
pub fn kind_named(names: &[&[u8]], sought: &[u8]) -> Option<u16>
    requires { length names.now ≤ 65536 }
    ensures { result ≡ position (λ name. bytes_eq sought.now name.now) names.now }
{
    let place = place_of(names, sought)?;
    u16::try_from(place).ok()
}
