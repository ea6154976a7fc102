// Vectors as bytes.
ghost use Rattle.std.specs.Prelude.{◌≡◌, ℕ, ◌<◌, ◌≤◌, Bool, true, false, ◌++◌, length, drop, Some, None, ◌≢◌, slice_index, slice_index_or};
ghost use Rattle.search.specs.Search.{whole, vector as vector_of};
ghost use Rattle.turns.specs.Plain.{byte, bytes, bits};

use search::places::map_into;

// Whether every byte is 0 or 1.
pub fn all_bits(vector: &[u8]) -> bool
    ensures all { result ≡ true → (i : ℕ) → i < length vector.now → slice_index vector.now i ≤ 1 }
    ensures some { result ≡ false → (i : ℕ) × (i < length vector.now) × (1 < slice_index vector.now i) }
{
    vector.iter().all(|b| *b <= 1)
}

// Whether the bytes have the value of each tied input.
pub fn agrees(ties: &[Option<bool>], vector: &[u8]) -> bool
    requires { length ties.now ≡ length vector.now }
    ensures all { result ≡ true → (i : ℕ) (b : Bool) → slice_index_or ties.now i None ≡ Some b → slice_index vector.now i ≡ byte b }
    ensures some { result ≡ false → (i : ℕ) × ((b : Bool) × (slice_index_or ties.now i None ≡ Some b) × (slice_index vector.now i ≢ byte b)) }
{
    ties.iter()
        .zip(vector)
        .all(|(tie, b)| tie.is_none_or(|value| *b == u8::from(value)))
}

// The bytes as values.
pub fn read_bits(vector: &[u8], values: &mut [bool])
    requires { length values.old ≡ length vector.now }
    ensures { values.new ≡ bits vector.now }
{
    map_into(vector, |b| b == 1, values);
}

// The setting that decides every input so.
pub fn decide_all(values: &[bool], setting: &mut [Option<bool>])
    requires { length setting.old ≡ length values.now }
    ensures { setting.new ≡ whole values.now }
{
    map_into(values, Some, setting);
}

// Writes a setting's vector into the first places; further places stay.
pub fn write_vector(setting: &[Option<bool>], vector: &mut [u8])
    requires { length setting.now ≤ length vector.old }
    ensures { vector.new ≡ bytes (vector_of setting.now) ++ drop (length setting.now) vector.old }
{
    map_into(setting, |value| u8::from(value.unwrap_or(false)), vector);
}
