//! Numbers in cells.

ghost use Rattle.std.specs.Prelude.{◌≡◌, length};
ghost use Rattle.byteorder.specs.Endian.{big_number};

/// The number of four bytes, the highest first.
pub fn number_of_four(bytes: &[u8]) -> u32
    requires { length bytes.now ≡ 4 }
    ensures { result ≡ big_number 4 bytes.now }
{
    u32::from_be_bytes(bytes.try_into().unwrap())
}
