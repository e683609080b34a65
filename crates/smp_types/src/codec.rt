ghost use Rattle.std.specs.Prelude.{◌≡◌};
ghost use Rattle.smp_types.specs.declared.codec.Error.TheVariants.{InvalidValue};

use crate::error::InvalidValue;

// Why octets were not decoded.
#[derive(Clone, Copy, PartialEq, Eq)]
pub enum Error {
    // There are fewer octets than the value has
    InsufficientSpace,
    // An octet stands for no value of its type
    InvalidValue,
}

impl From<InvalidValue> for Error {
    ghost from_gives = { λ _ e. e ≡ InvalidValue };

    fn from(_e: InvalidValue) -> Error {
        Error::InvalidValue
    }
}
