// A reader of instruction strings, which remembers its place: `start`, `read` and `decode` are thin, and `decoder` does the work.
#![tactic(auto)]

ghost use Rattle.std.specs.Prelude.{◌≡◌};
ghost use Rattle.decoder.specs.Read.{behind, decoded_of};
ghost use Rattle.isa.specs.Decode as isa;

pub use decoder::Found;
pub use modrm::{Malformed, Reader};

/// A reader at the start of a string.
pub fn start(string: &[u8]) -> Reader<'_>
    ensures { (result.string ≡ string.entry) × (result.at ≡ 0) }
{
    Reader { string, at: 0 }
}

/// The instruction at the reader's place; none at the string's end. The reader then stands behind it; a refused read, and one at the string's end, leave it
/// where it was.
pub fn read(reader: &mut Reader) -> Result<Option<Found>, Malformed>
    ensures value { decoded_of result ≡ isa.decode_at reader.old.string.now reader.old.at }
    ensures string { reader.new.string ≡ reader.old.string }
    ensures place { reader.new.at ≡ behind (decoded_of result) reader.old.at }
{
    decoder::decode(reader)
}

/// The instruction that a string begins with; none if it has no byte.
pub fn decode(string: &[u8]) -> Result<Option<Found>, Malformed>
    ensures { decoded_of result ≡ isa.decode string.now }
{
    read(&mut start(string))
}
