ghost use Rattle.std.specs.Prelude.{◌≡◌};

use domain::refusal::Refusal;

// Why a call is refused, and what it was given, which it gives back as it was.
// `begin`, `post`, `withdraw` and `take` say `if let Err(why) = ..` and no `?`: what was given moves, so a closure of `map_err` would
// hold it before the check is done, and take it from where all is well.
#[derive(Drop)]
pub struct Denied<T> {
    pub given: T,
    pub why: Refusal,
}

// Where what was given can be let go, `?` keeps the reason alone.
impl<T: Drop> From<Denied<T>> for Refusal {
    ghost from_gives = { λ denied why. why ≡ denied.why };

    fn from(denied: Denied<T>) -> Refusal {
        denied.why
    }
}
