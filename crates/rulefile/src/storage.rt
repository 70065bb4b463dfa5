// Reads `storage`: how many places are brought, by keys that may each stand once.
ghost use Rattle.rulefile.specs.Outcomes.{word_by_word};
ghost use Rattle.rulefile.specs.Storages.{added_key, no_keys, places_of, put_key, storage_from, storage_of, wanted_key, with_key};
ghost use Rattle.rulefile.specs.Words.{words_in};
ghost use Rattle.std.specs.Prelude.{◌≡◌};

use crate::fault::Fault;
use crate::numbers::unsigned;
use crate::rules::Storage;
use crate::words::{split_once, words_from};

// What a key of `storage` counts: places of a table, or elements of a pool.
#[derive(Clone, Copy, Debug, PartialEq, Eq)]
pub(crate) enum StorageKey {
    Sets,
    SetPool,
    Devices,
    DevicePool,
    Deltas,
    DeltaPool,
    Rules,
    Store,
}

// The numbers that are given so far, by their keys.
#[derive(Clone, Copy, Debug, Default, PartialEq, Eq)]
pub(crate) struct GivenKeys {
    pub sets: Option<u32>,
    pub set_pool: Option<u32>,
    pub devices: Option<u32>,
    pub device_pool: Option<u32>,
    pub deltas: Option<u32>,
    pub delta_pool: Option<u32>,
    pub rules: Option<u32>,
    pub store: Option<u32>,
}

impl TryFrom<&[u8]> for StorageKey {
    type Error = Fault;

    ghost try_from_gives = { λ w r. r ≡ wanted_key w.now };

    fn try_from(word: &[u8]) -> Result<StorageKey, Fault> {
        match word {
            b"sets" => Ok(StorageKey::Sets),
            b"set-pool" => Ok(StorageKey::SetPool),
            b"devices" => Ok(StorageKey::Devices),
            b"device-pool" => Ok(StorageKey::DevicePool),
            b"deltas" => Ok(StorageKey::Deltas),
            b"delta-pool" => Ok(StorageKey::DeltaPool),
            b"rules" => Ok(StorageKey::Rules),
            b"store" => Ok(StorageKey::Store),
            _ => Err(Fault::StorageKey),
        }
    }
}

// A number of places.
fn read_places(word: &[u8]) -> Result<u32, Fault>
    ensures { result ≡ places_of word.now }
{
    unsigned(word, u32::MAX).ok_or(Fault::StorageNumber)
}

// The keys with one more, unless it is there. Stays apart from `with_metric`: a trait that lends the field of a key is longer than both.
fn with_key(mut given: GivenKeys, key: StorageKey, places: u32) -> Result<GivenKeys, Fault>
    ensures { result ≡ with_key given key places }
{
    let held = match key {
        StorageKey::Sets => given.sets.replace(places),
        StorageKey::SetPool => given.set_pool.replace(places),
        StorageKey::Devices => given.devices.replace(places),
        StorageKey::DevicePool => given.device_pool.replace(places),
        StorageKey::Deltas => given.deltas.replace(places),
        StorageKey::DeltaPool => given.delta_pool.replace(places),
        StorageKey::Rules => given.rules.replace(places),
        StorageKey::Store => given.store.replace(places),
    };
    if held.is_some() {
        return Err(Fault::StorageKeyTwice);
    }
    Ok(given)
}

// The keys with one more, from its word and its number.
fn put_key(given: GivenKeys, key: &[u8], number: &[u8]) -> Result<GivenKeys, Fault>
    ensures { result ≡ put_key given key.now number.now }
{
    let key = StorageKey::try_from(key)?;
    let places = read_places(number)?;
    with_key(given, key, places)
}

// The keys with that of a word more.
fn add_key(given: GivenKeys, word: &[u8]) -> Result<GivenKeys, Fault>
    ensures { result ≡ added_key given word.now }
{
    let (key, number) = split_once(word, b'=').ok_or(Fault::StorageKey)?;
    put_key(given, key, number)
}

// The storage that the given keys ask for; a key that is absent has its default.
fn with_defaults(given: GivenKeys) -> Storage
    ensures { result ≡ storage_from given }
{
    Storage {
        sets: given.sets.unwrap_or(65534),
        set_pool: given.set_pool.unwrap_or(1048576),
        devices: given.devices.unwrap_or(65535),
        device_pool: given.device_pool.unwrap_or(1048576),
        deltas: given.deltas.unwrap_or(65535),
        delta_pool: given.delta_pool.unwrap_or(1048576),
        rules: given.rules.unwrap_or(65535),
        store: given.store.unwrap_or(65535),
    }
}

// The keys of the words. Stays apart from `read_metrics`: a loop of two lines each, and one over both would need the step as a closure with a
// clause for it.
fn read_keys(words: &[&[u8]]) -> Result<GivenKeys, Fault>
    ensures { result ≡ word_by_word added_key no_keys (words_in words.now) }
{
    let mut given = GivenKeys::default();
    for word in words {
        given = add_key(given, word)?;
    }
    Ok(given)
}

// storage KEY=N and more of them
pub(crate) fn read_storage(words: &[&[u8]]) -> Result<Storage, Fault>
    ensures { result ≡ storage_of (words_in words.now) }
{
    let keys = words_from(words, 1);
    if keys.is_empty() {
        return Err(Fault::StorageKey);
    }
    read_keys(keys).map(with_defaults)
}

// What is brought where no `storage` says otherwise.
pub(crate) fn default_storage() -> Storage
    ensures { result ≡ storage_from no_keys }
{
    with_defaults(GivenKeys::default())
}
