// The decimal digits of an account.
#[derive(Clone, Copy, PartialEq, Eq, Debug)]
pub enum Digits {
    Zero,
    Two,
    Three,
}
