// The calls that answer a sheet, with their buffers.
ghost use Rattle.std.specs.Prelude.{◌≡◌, ◌+◌, ◌≤◌, vec_len, vec_capacity};
ghost use Rattle.lines.specs.Limits.{max_inputs, max_lines};

use names::name::Name;
use settling::latest::Latest;
use times::ticks::Ticks;
use turns::calls::Call;

// The buffers of one call: a place for each input and for each line that there can be.
#[derive(Drop)]
pub(crate) struct Buffers {
    pub(crate) vector: Vec<u8>,
    pub(crate) work: Vec<Latest<Ticks>>,
    ghost wide: { vec_len vector ≡ max_inputs },
    ghost deep: { vec_len work ≡ max_lines },
}

// The calls so far, the name of the line that each asks for, and the buffers for those to come. The names lie in a list of
// their own, since a run uses the calls up, and a name is no part of a call.
#[derive(Drop)]
pub(crate) struct Plan {
    pub(crate) spare: Vec<Buffers>,
    pub(crate) calls: Vec<Call<Ticks>>,
    pub(crate) names: Vec<Name>,
    ghost shared: { vec_len spare + vec_len calls ≡ max_lines },
    ghost beside: { vec_len names ≡ vec_len calls },
    ghost room: { (max_lines ≤ vec_capacity calls) × (max_lines ≤ vec_capacity names) },
}
