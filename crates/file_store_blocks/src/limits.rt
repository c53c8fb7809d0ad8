//! How many blocks files take.

ghost use Rattle.std.specs.Prelude.{◌≡◌};
ghost use Rattle.file_store_model.specs.Store.{blocks_for};

/// How many blocks of 512 octets a file of this length takes.
pub(crate) fn blocks_of_length(file_length: u32) -> u32
    ensures { result ≡ blocks_for file_length }
{
    file_length.div_ceil(512)
}
