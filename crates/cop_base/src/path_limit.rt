//! Path limits.

ghost use Rattle.std.specs.Prelude.{◌≡◌, ◌≤◌, IfSome, is_some};
ghost use Rattle.calculus.specs.declared.limits.TheConstants.{MAX_PATH_LIMIT};
ghost use Rattle.calculus.specs.DerivationText.{is_limit};

use calculus::limits::MAX_PATH_LIMIT;

/// How many goals a path may have: a number that can be searched and that a derivation may state.
#[derive(Clone, Copy, Debug, PartialEq, Eq)]
pub struct PathLimit {
    pub number: u8,
    pub ghost from_one: { 1 ≤ number },
    pub ghost to_most: { number ≤ MAX_PATH_LIMIT },
}

impl PathLimit {
    /// The limit of this number, if it is one.
    pub fn new(number: u64) -> Option<PathLimit>
        ensures limit { is_some result ≡ is_limit number }
        ensures number { IfSome result (λ l. l.number ≡ number) }
    {
        if 1 <= number && number <= u64::from(MAX_PATH_LIMIT) {
            return Some(PathLimit {
                number: number as u8,
            });
        }
        None
    }
}
