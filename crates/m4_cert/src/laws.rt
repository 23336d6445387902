ghost use Rattle.std.specs.Prelude.{ℕ, List};
ghost use Rattle.m4_model.specs.Matrix.{Matrix, IsMatrix};
ghost use Rattle.m4_model.specs.Rank.{IsRank};
ghost use Rattle.m4_model.specs.Forms.{Singular, NoSolution};
ghost use Rattle.m4_cert.specs.Certificates.{CertRank, CertSingular, CertNone};

/// A matrix has the rank that a certificate of it tells.
pub fn law_cert_rank()
    ensures { (A : Matrix) (bytes : List ℕ) (r : ℕ) → IsMatrix A → CertRank A bytes r → IsRank A r }
{}

/// A matrix with such a certificate is singular.
pub fn law_cert_singular()
    ensures { (A K : Matrix) → IsMatrix A → IsMatrix K → CertSingular A K → Singular A }
{}

/// Equations with such a certificate have no solution.
pub fn law_cert_none()
    ensures { (A B W : Matrix) → IsMatrix A → IsMatrix W → CertNone A B W → NoSolution A B }
{}
