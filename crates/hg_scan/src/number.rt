//! The numbers that digits name.
ghost use Rattle.std.specs.Prelude.{◌≡◌, ◌==◌, ◌<◌, ◌≤◌, ◌^◌, IsTrue, length, false};
ghost use Rattle.std.specs.List.{list_all};
ghost use Rattle.hg_model.specs.Name.{is_digit};
ghost use Rattle.hg_model.specs.Tokens.{begins, is_number, number_of};

/// A number, by its magnitude.
#[derive(Clone, Copy)]
pub enum Number {
    /// It is below 10^38.
    Magnitude(i128),
    TooLong,
}

/// The number that at most 19 digits name.
fn short_value(digits: &[u8]) -> u64
    requires few { length digits.now ≤ 19 }
    requires digits { IsTrue (list_all is_digit digits.now) }
    ensures value { result ≡ number_of digits.now }
    ensures small { result < 10 ^ 19 }
{
    let mut all: u64 = 0;
    for d in digits {
        all = 10 * all + (*d - b'0') as u64;
    }
    all
}

/// The number that at most 38 digits name.
fn long_value(digits: &[u8]) -> u128
    requires few { length digits.now ≤ 38 }
    requires digits { IsTrue (list_all is_digit digits.now) }
    ensures value { result ≡ number_of digits.now }
    ensures small { result < 10 ^ 38 }
{
    let mut all: u128 = 0;
    for d in digits {
        all = 10 * all + (*d - b'0') as u128;
    }
    all
}

/// Digits without the zeros that they begin with.
fn without_zeros(digits: &[u8]) -> &[u8]
    requires { IsTrue (list_all is_digit digits.now) }
    ensures same { number_of result.now ≡ number_of digits.now }
    ensures digits { IsTrue (list_all is_digit result.now) }
    ensures first { begins (λ b. b == 48) result.now ≡ false }
{
    let mut rest = digits;
    while let [b'0', behind @ ..] = rest {
        rest = behind;
    }
    rest
}

impl Number {
    ghost use Rattle.hg_scan.specs.Shown.{IsNumber};

    pub(crate) fn of_digits(digits: &[u8]) -> Number
        requires { IsTrue (is_number digits.now) }
        ensures { IsNumber result (number_of digits.now) }
    {
        if digits.len() <= 19 {
            return Number::Magnitude(short_value(digits) as i128);
        }
        let digits = without_zeros(digits);
        if digits.len() <= 38 {
            Number::Magnitude(long_value(digits) as i128)
        } else {
            Number::TooLong
        }
    }
}
