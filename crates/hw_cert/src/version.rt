//! The versions of a certificate.

ghost use Rattle.std.specs.Prelude.{◌≡◌};
ghost use Rattle.hw_cert.specs.Spelled.{is_within};

/// The form of a certificate, named in its first line: `cert 1`, `cert 2` with deletions, or `cert 3`
/// with tolls.
#[derive(Clone, Copy)]
pub enum Version {
    One,
    Two,
    Three,
}

impl Version {
    /// Whether the other version is this one or an earlier one.
    pub fn allows(self, other: Version) -> bool
        ensures { result ≡ is_within self other }
    {
        match other {
            Version::One => true,
            Version::Two => !matches!(self, Version::One),
            Version::Three => matches!(self, Version::Three),
        }
    }
}
