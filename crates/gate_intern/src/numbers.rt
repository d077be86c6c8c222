//! Numbers the keys of a set: the first key is 1, since 0 stands for a missing key.
ghost use Rattle.std.specs.Prelude.{◌≡◌, ◌+◌, IfOk, OnOk};
ghost use Rattle.std.specs.List.{position_or_len};
ghost use Rattle.indexmap.specs.IndexSet.{insert_key};

use gate_record::Memory;
use indexmap::IndexSet;
use std::hash::Hash;

// Returns the number of a key. A new key is put last and gets the next number. `Memory` also means that there are more keys than
// a `u32` counts.
pub(crate) fn number<K: Eq + Hash + Drop>(keys: &mut IndexSet<K>, key: K) -> Result<u32, Memory>
    ensures keys { OnOk result (keys.new.keys ≡ insert_key K.eq keys.old.keys key) }
    ensures number { IfOk result (λ n. n ≡ position_or_len (K.eq key) keys.old.keys + 1) }
{
    let (place, _) = keys.insert_full(key)?;
    number_at(place)
}

// Returns the number of a key. A key that isn't in the set has the number that the next new key would get, which stands for none
// of the keys.
pub(crate) fn number_of<K: Eq + Hash>(keys: &IndexSet<K>, key: &K) -> Result<u32, Memory>
    ensures { IfOk result (λ n. n ≡ position_or_len (K.eq key.now) keys.now.keys + 1) }
{
    number_at(keys.get_index_of(key).unwrap_or(keys.len()))
}

// `Memory` means here that a `u32` can't hold the number.
pub(crate) fn number_at(place: usize) -> Result<u32, Memory>
    ensures { IfOk result (λ n. n ≡ place + 1) }
{
    let Ok(place) = u32::try_from(place) else {
        return Err(Memory);
    };
    place.checked_add(1).ok_or(Memory)
}
