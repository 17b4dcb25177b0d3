ghost use Rattle.domain.specs.References.{IsKey};

// What a reference is compared by: its bytes, zero bytes behind them, as two numbers of 64 bits, high byte first.
// The empty reference and NONREF have the blank key, 0 and 0. Only keys of references exist.
#[derive(Clone, Copy, PartialEq, Eq, Debug)]
pub struct Key {
    pub(crate) high: u64,
    pub(crate) low: u64,
    ghost real: { IsKey high low },
}
