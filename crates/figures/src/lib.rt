// Theorems over the definitions that the contracts of the values cite.
#![tactic(auto)]

ghost use Rattle.figures.specs.Amounts.{AmountsStand};
ghost use Rattle.figures.specs.Keyed.{KeysStand};

// Keys tell references apart, come from references alone, and are printed as these.
pub fn keys_stand()
    ensures { KeysStand }
{}

// An amount with a decimal comma is read exactly where a text begins with one, and digits are worth what their places say.
pub fn comma_amounts_stand()
    ensures { AmountsStand }
{}
