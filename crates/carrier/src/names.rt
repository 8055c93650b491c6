// Header names.
ghost use Rattle.std.specs.Prelude.{◌≡◌};
ghost use Rattle.carrier.specs.Names.{is_name};

use byte_classes::sets::Name;
use text::check::all_in;

// The longest name.
pub const MAX_NAME: usize = 64;

// Whether this can name a header.
pub fn is_name(name: &[u8]) -> bool
    ensures { result ≡ is_name name.now }
{
    !name.is_empty() && name.len() <= MAX_NAME && all_in::<Name>(name)
}
