// Keeping bytes as a name, and reading them again.
ghost use Rattle.std.specs.Prelude.{◌≡◌, ◌≤◌, length};
ghost use Rattle.names.specs.Kept.{bytes_of};
ghost use Rattle.names.specs.Names.{max_name};

use crate::MAX_NAME;
use crate::name::Name;

impl Name {
    // Keeps the bytes, lawful or not. There are at most eight: every lawful name has no more, and of others a caller sees to it.
    pub fn of(bytes: &[u8]) -> Self
        requires { length bytes.now ≤ max_name }
        ensures { bytes_of result ≡ bytes.now }
    {
        let mut all = [0; MAX_NAME];
        all[..bytes.len()].copy_from_slice(bytes);
        Name {
            bytes: all,
            len: bytes.len(),
        }
    }

    // The bytes that were kept.
    pub fn as_bytes(&self) -> &[u8]
        ensures { result.now ≡ bytes_of self.now }
    {
        &self.bytes[..self.len]
    }
}
