ghost use Rattle.integers.specs.Laws.{ProductDistributes, ProductIsAssociative, ProductIsZero, DivisionIsExact, GcdIsGreatest, GcdIsAssociative, GcdOfMultiples, GcdKeepsUnderMultiples, SignedGcdTimesFirst, SignedGcdTimesSecond, SignedGcdTimesThird, SignedGcdIsZero, SignedGcdOfMultiples, SignedGcdOfQuotients};

/// Products of integers, and the quotient of a multiple.
pub fn product_laws()
    ensures distributes { ProductDistributes }
    ensures is_associative { ProductIsAssociative }
    ensures is_zero { ProductIsZero }
    ensures division_is_exact { DivisionIsExact }
{}

/// The greatest common divisor of two numbers.
pub fn gcd_laws()
    ensures is_greatest { GcdIsGreatest }
    ensures is_associative { GcdIsAssociative }
    ensures of_multiples { GcdOfMultiples }
    ensures keeps_under_multiples { GcdKeepsUnderMultiples }
{}

/// The greatest common divisor of three integers, with the sign of the first that is not 0.
pub fn signed_gcd_laws()
    ensures times_first { SignedGcdTimesFirst }
    ensures times_second { SignedGcdTimesSecond }
    ensures times_third { SignedGcdTimesThird }
    ensures is_zero { SignedGcdIsZero }
    ensures of_multiples { SignedGcdOfMultiples }
    ensures of_quotients { SignedGcdOfQuotients }
{}
