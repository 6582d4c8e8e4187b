//! What is left of the operands of a sum without their shifts and their common factor, which the sum gets back.
ghost use Rattle.std.specs.Prelude.{◌≢◌, pos};
ghost use Rattle.kind_laws.specs.Plain.{plain, answered};
ghost use Rattle.kind_laws.specs.Scale.{scale_of, MayScale, MayShift};
ghost use Rattle.diagram.specs.SumRests.{Unshifts, Reduces, PutsBack};
ghost use Rattle.diagram.specs.declared.walk.Walk.TheVariants as by;

use crate::multiple::has_factors;
use crate::walk::Walk;
use kind_laws::{Edge, Kind};
use weights::{exact_div, signed_gcd};
use word_base::{Overflow, Weight};

/// The sum of the shifts of two edges and the edges without them, where a walk takes them off.
pub(crate) fn unshifted<K: Kind>(
    walk: Walk,
    a: Edge<K>,
    b: Edge<K>,
) -> Result<(Weight, Edge<K>, Edge<K>), Overflow>
    ensures { Unshifts walk K.NAME (plain K.extra_of a, plain K.extra_of b)
        (answered (λ r. (r.0, plain K.extra_of r.1, plain K.extra_of r.2)) result) }
{
    match walk {
        Walk::Plain => Ok((Weight::ZERO, a, b)),
        Walk::Stripping => {
            let (first_shift, first) = K::take_shift(a);
            let (second_shift, second) = K::take_shift(b);
            let shift = first_shift.add(second_shift)?;
            Ok((shift, first, second))
        }
    }
}

/// The common factor of two edges and their quotients by it, where a walk takes it off.
pub(crate) fn reduced<K: Kind>(
    walk: Walk,
    a: Edge<K>,
    b: Edge<K>,
) -> Result<(Weight, Edge<K>, Edge<K>), Overflow>
    requires a_some { scale_of K.NAME (plain K.extra_of a).root ≢ pos 0 }
    requires b_some { scale_of K.NAME (plain K.extra_of b).root ≢ pos 0 }
    ensures { Reduces walk K.NAME (plain K.extra_of a, plain K.extra_of b)
        (answered (λ r. (r.0, plain K.extra_of r.1, plain K.extra_of r.2)) result) }
{
    match walk {
        Walk::Plain => Ok((Weight::ONE, a, b)),
        Walk::Stripping => quotients(a, b),
    }
}

/// The common factor of two edges, which has the sign of the first one's, and their quotients by it. It is 1 where edges do not
/// multiply.
fn quotients<K: Kind>(a: Edge<K>, b: Edge<K>) -> Result<(Weight, Edge<K>, Edge<K>), Overflow>
    requires a_some { scale_of K.NAME (plain K.extra_of a).root ≢ pos 0 }
    requires b_some { scale_of K.NAME (plain K.extra_of b).root ≢ pos 0 }
    ensures { Reduces by.Stripping K.NAME (plain K.extra_of a, plain K.extra_of b)
        (answered (λ r. (r.0, plain K.extra_of r.1, plain K.extra_of r.2)) result) }
{
    if !has_factors::<K>() {
        return Ok((Weight::ONE, a, b));
    }
    let (first_factor, first_rest) = K::take_scale(a);
    let (second_factor, second_rest) = K::take_scale(b);
    let factor = signed_gcd(first_factor, second_factor, Weight::ZERO);
    let first = K::put_scale(exact_div(first_factor, factor), first_rest)?;
    let second = K::put_scale(exact_div(second_factor, factor), second_rest)?;
    Ok((factor, first, second))
}

/// The sum of two edges, from that of what is left of them.
pub(crate) fn put_back<K: Kind>(
    walk: Walk,
    factor: Weight,
    shift: Weight,
    rest: Edge<K>,
) -> Result<Edge<K>, Overflow>
    requires may_scale { MayScale K.NAME factor }
    requires may_shift { MayShift K.NAME shift }
    ensures { PutsBack walk K.NAME factor shift (plain K.extra_of rest) (answered (plain K.extra_of) result) }
{
    match walk {
        Walk::Plain => Ok(rest),
        Walk::Stripping => {
            let multiple = K::put_scale(factor, rest)?;
            K::put_shift(shift, multiple)
        }
    }
}
