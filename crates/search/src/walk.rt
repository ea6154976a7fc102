// The steps of the search from one setting to the next.
ghost use Rattle.std.specs.Prelude.{◌≡◌, ◌<◌, ◌≤◌, length, is_some, IfSome};
ghost use Rattle.std.specs.List.{position};
ghost use Rattle.std.specs.Option.{is_none, unwrap_or};
ghost use Rattle.search.specs.Turns.{Over, next_setting};

// The first undecided input, if any.
pub fn next_open(setting: &[Option<bool>]) -> Option<usize>
    ensures first { result ≡ position is_none setting.now }
    ensures within { IfSome result (λ input. input < length setting.now) }
{
    setting.iter().position(|input| input.is_none())
}

// Moves on from a setting whose continuations are done; false at the end of the search, where the ties are left.
pub fn pass(ties: &[Option<bool>], setting: &mut [Option<bool>]) -> bool
    requires { Over ties.now setting.old }
    ensures answer { result ≡ is_some (next_setting ties.now setting.old) }
    ensures setting { setting.new ≡ unwrap_or (next_setting ties.now setting.old) ties.now }
{
    // By index: no invariant of a loop over `setting.iter_mut().zip(ties).rev()` can say what the loop has written.
    for i in (0..setting.len()).rev() {
        if ties[i].is_none() {
            match setting[i] {
                Some(false) => {
                    setting[i] = Some(true);
                    return true;
                }
                Some(true) => setting[i] = None,
                None => {}
            }
        }
    }
    false
}
