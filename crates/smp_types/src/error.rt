// An octet that stands for no value of a type.
#[derive(Clone, Copy, PartialEq, Eq)]
pub struct InvalidValue;
