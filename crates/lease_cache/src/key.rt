ghost use Rattle.std.specs.Prelude.{◌≡◌};
ghost use Rattle.lease_cache.specs.Keys.{place_of, IsKey};

use arrayvec::ArrayVec;
use mds_base::Name;

/// The most bytes of a key: those of a directory's number, and of a name.
const KEY_MOST: usize = 8 + 255;

/// The bytes by which a place is looked up, without taking memory.
pub type Key = ArrayVec<u8, KEY_MOST>;

/// The key of a place.
pub fn key_of(dir: u64, name: &Name) -> Key
    ensures place { place_of result.items ≡ (dir, name.now) }
    ensures is_key { IsKey result.items }
{
    let name = name.bytes();
    let mut key = Key::new();
    key.try_extend_from_slice(&dir.to_be_bytes()).unwrap();
    key.try_extend_from_slice(name).unwrap();
    key
}
