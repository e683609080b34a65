ghost use Rattle.std.specs.Prelude.{◌≡◌};
ghost use Rattle.util.specs.Method.{level_code};

// Security level of a connection
#[derive(Clone, Copy, PartialEq, Eq)]
pub enum SecurityLevel {
    // No encryption and no authentication. All connections start on this security level.
    NoEncryption = 0,
    // Encrypted but not authenticated communication. Does not provide MITM protection.
    Encrypted = 1,
    // Encrypted and authenticated security level. MITM protected.
    EncryptedAuthenticated = 2,
}

impl From<SecurityLevel> for u8 {
    ghost from_gives = { λ level code. code ≡ level_code level };

    fn from(val: SecurityLevel) -> u8 {
        val as u8
    }
}
