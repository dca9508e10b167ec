//! The law of the encoding of certificates.

ghost use Rattle.std.specs.Prelude.{◌≡◌, List};
ghost use Rattle.jc_cert.specs.Cert.{Row, IsCert};
ghost use Rattle.jc_cert.specs.Writing.{spelling};

/// Certificates with the same encoding are equal: each has the one encoding that `write` returns, and no two share one.
/// It does nothing.
pub fn one_spelling()
    ensures { (a b : List Row) → IsCert a → IsCert b → spelling a ≡ spelling b → a ≡ b }
{}
