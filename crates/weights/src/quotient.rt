ghost use Rattle.std.specs.Prelude.{◌≡◌, ◌≢◌, pos, negsuc, ◌*ℤ◌, unsigned_abs, int_div};
ghost use Rattle.std.specs.Int.{◌∣◌};

use word_base::Weight;

/// The quotient by a divisor of the number: at once where the divisor is 1 or -1.
pub fn exact_div(number: Weight, by: Weight) -> Weight
    requires nonzero { by ≢ pos 0 }
    requires divides { unsigned_abs by ∣ unsigned_abs number }
    ensures exact { by *ℤ result ≡ number }
    ensures quotient { result ≡ int_div number by }
{
    if by == Weight::ONE {
        return number;
    }
    if by.get() == -1 {
        return number.neg();
    }
    Weight::new(quotient_of(number.get(), by.get())).unwrap()
}

/// The quotient, rounded toward 0: in 64 bits where both numbers have no more.
fn quotient_of(number: i128, by: i128) -> i128
    requires nonzero { by ≢ pos 0 }
    requires no_sign { by ≢ negsuc 0 }
    ensures { result ≡ int_div number by }
{
    match (i64::try_from(number), i64::try_from(by)) {
        (Ok(number), Ok(by)) => i128::from(number / by),
        _ => number / by,
    }
}

/// The magnitude of a weight.
pub fn magnitude(weight: Weight) -> Weight
    ensures { result ≡ pos (unsigned_abs weight) }
{
    Weight::new(weight.get().abs()).unwrap()
}
