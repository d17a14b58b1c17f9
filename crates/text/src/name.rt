// Names of signals and of kinds.
ghost use Rattle.std.specs.Prelude.{◌≡◌, Decides};
ghost use Rattle.text.specs.Words.{capital, digit, name_byte, kind_byte, Each, Name, Kind};

// A signal's name has NAME_LOW to NAME_HIGH bytes, a kind's at most KIND_HIGH.
pub const NAME_LOW: usize = 2;

pub const NAME_HIGH: usize = 16;

pub const KIND_HIGH: usize = 8;

pub(crate) fn is_capital(b: u8) -> bool
    ensures { result ≡ capital b }
{
    matches!(char::from(b), 'A'..='Z')
}

pub fn is_digit(b: u8) -> bool
    ensures { result ≡ digit b }
{
    matches!(char::from(b), '0'..='9')
}

pub fn is_name_byte(b: u8) -> bool
    ensures { result ≡ name_byte b }
{
    matches!(char::from(b), 'A'..='Z' | '0'..='9' | '_')
}

pub fn is_kind_byte(b: u8) -> bool
    ensures { result ≡ kind_byte b }
{
    matches!(char::from(b), 'a'..='z' | '0'..='9')
}

// Whether the bytes are a signal's name.
pub fn is_name(bytes: &[u8]) -> bool
    ensures { Decides result (Name bytes.now) }
{
    (NAME_LOW..=NAME_HIGH).contains(&bytes.len())
        && is_capital(bytes[0])
        && bytes.iter().all(|b| is_name_byte(*b))
}

// Whether the bytes are a kind's name.
pub fn is_kind(bytes: &[u8]) -> bool
    ensures { Decides result (Kind bytes.now) }
{
    (1..=KIND_HIGH).contains(&bytes.len()) && bytes.iter().all(|b| is_kind_byte(*b))
}
