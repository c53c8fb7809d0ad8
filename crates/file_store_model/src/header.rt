//! The header that a file begins with (PFH 1990).

ghost use Rattle.std.specs.Prelude.{◌≡◌, []};
ghost use Rattle.pfh_items.specs.Layout.{HeaderText};
ghost use Rattle.pfh_writer.specs.Short.{HasEachOnce};
ghost use Rattle.file_store_model.specs.Headers.{IsWholeHeader, header_items};

use pfh_items::Header;

/// The header that these octets are, with an empty body. It walks over the items. Takes no memory.
pub fn header_in(octets: &[u8]) -> Header<'_>
    requires { IsWholeHeader octets.now }
    ensures items { result.items ≡ header_items octets.now }
    ensures text { HeaderText result.items octets.now }
    ensures once { HasEachOnce result.items }
    ensures body { result.body ≡ [] }
{
    Header::of(octets).unwrap()
}
