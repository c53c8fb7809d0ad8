//! What the check of a file keeps of its octets.

ghost use Rattle.std.specs.Prelude.{◌≡◌, ◌+◌, ◌≤◌, length};
ghost use Rattle.pfh_reader.specs.Measures.{at_end, with_body, with_header};

use pfh_items::sum16;

/// The lengths and sums of a file's octets.
#[derive(Clone, Copy, Debug, PartialEq, Eq)]
pub(crate) struct Measures {
    /// The octets of the file.
    pub(crate) file_len: usize,
    /// The octets of the header.
    pub(crate) header_len: usize,
    /// The sum of the header's octets, all of them.
    pub(crate) header_sum: u16,
    /// The sum of the body's octets.
    pub(crate) body_sum: u16,
}

impl Measures {
    /// Adds octets of the header.
    pub(crate) fn add_header(&mut self, octets: &[u8])
        requires { self.old.file_len + length octets.now ≤ 4194304 }
        ensures { self.new ≡ with_header self.old octets.now }
    {
        self.file_len += octets.len();
        self.header_sum = self.header_sum.wrapping_add(sum16(octets));
    }

    /// Adds octets of the header, which end it.
    pub(crate) fn end_header(&mut self, octets: &[u8])
        requires { self.old.file_len + length octets.now ≤ 4194304 }
        ensures { self.new ≡ at_end (with_header self.old octets.now) }
    {
        self.add_header(octets);
        self.header_len = self.file_len;
    }

    /// Adds octets of the body.
    pub(crate) fn add_body(&mut self, octets: &[u8])
        requires { self.old.file_len + length octets.now ≤ 4194304 }
        ensures { self.new ≡ with_body self.old octets.now }
    {
        self.file_len += octets.len();
        self.body_sum = self.body_sum.wrapping_add(sum16(octets));
    }
}
