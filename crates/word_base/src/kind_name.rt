ghost use Rattle.std.specs.Prelude.{◌≡◌};
ghost use Rattle.word_base.specs.Kind.{is_allowed, usual_letter};

use crate::decomp::Decomp;

/// The kinds of word-level decision diagram.
#[derive(Clone, Copy, Debug, PartialEq, Eq)]
pub enum KindName {
    /// Edge-valued binary decision diagrams (Lai and Sastry 1992).
    Evbdd,
    /// Multiplicative binary moment diagrams, *BMDs (Bryant and Chen 1995).
    StarBmd,
    /// Hybrid decision diagrams (Clarke, Fujita and Zhao 1995).
    Hdd,
    /// Kronecker multiplicative binary moment diagrams, K*BMDs (Drechsler, Becker and Ruppertz 1996).
    KStarBmd,
}

/// Whether a diagram of the kind may decompose a level by the letter: `S` alone in an EVBDD, `P` alone
/// in a *BMD, each letter in the other two.
pub fn allows(kind: KindName, letter: Decomp) -> bool
    ensures { result ≡ is_allowed kind letter }
{
    match kind {
        KindName::Evbdd => letter == Decomp::S,
        KindName::StarBmd => letter == Decomp::P,
        KindName::Hdd | KindName::KStarBmd => true,
    }
}

/// The letter of a level for which nothing else is asked.
pub fn usual(kind: KindName) -> Decomp
    ensures { result ≡ usual_letter kind }
{
    match kind {
        KindName::Evbdd => Decomp::S,
        KindName::StarBmd | KindName::Hdd | KindName::KStarBmd => Decomp::P,
    }
}
