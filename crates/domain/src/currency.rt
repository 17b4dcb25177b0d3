ghost use Rattle.std.specs.Prelude.{◌≡◌, true};
ghost use Rattle.domain.specs.Currencies.{is_currency};

// Three capitals.
#[derive(Clone, Copy, PartialEq, Eq, Debug)]
pub struct Currency {
    pub(crate) code: [u8; 3],
    ghost capitals: { is_currency code ≡ true },
}
