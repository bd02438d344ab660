// A decimal number, read a byte at a time.
ghost use Rattle.std.specs.Prelude.{◌≡◌, ◌*◌, ◌^◌, ◌<◌, ◌≤◌, false, IfSome, MatchResult};
ghost use Rattle.std.specs.Float.{binary64};
ghost use Rattle.std.specs.Float.Ieee.{round};
ghost use Rattle.words.specs.Decimals.{count, digit, after_point, after_letter, signed, power_signed, with_sign, extended, raised, with_whole, with_fraction, with_power, with_digit, at_stage, decimal_with, signs, scaled, value, ends, number};
ghost use Rattle.words.specs.declared.decimal.NoNumber.TheVariants.{TooLong, TooFar};

// How far the text is read: nothing; a sign; digits; a point with no digit before it; a point and a
// digit; the letter of the power; its sign; its digits. Any other text is no decimal.
#[derive(Clone, Copy, Debug, PartialEq, Eq)]
pub enum Stage {
    Start,
    Signed,
    Whole,
    Point,
    Fraction,
    Letter,
    LetterSigned,
    Power,
    Other,
}

// Fifteen digits are fewer than this.
const TOO_LONG: u64 = 1_000_000_000_000_000;

// A number of places or a power that no decimal here has.
const TOO_FAR: u64 = 1000;

// The powers of ten that a float holds, each of them exactly.
const TENS: [f64; 23] = [
    1.0,
    10.0,
    100.0,
    1000.0,
    10000.0,
    100000.0,
    1000000.0,
    10000000.0,
    100000000.0,
    1000000000.0,
    10000000000.0,
    100000000000.0,
    1000000000000.0,
    10000000000000.0,
    100000000000000.0,
    1000000000000000.0,
    10000000000000000.0,
    100000000000000000.0,
    1000000000000000000.0,
    10000000000000000000.0,
    100000000000000000000.0,
    1000000000000000000000.0,
    10000000000000000000000.0,
];

// The digits before the power as one whole number, how many of them stand behind the point, and the
// power, which `lowered` makes negative.
#[derive(Clone, Copy)]
pub struct Decimal {
    pub stage: Stage,
    pub negative: bool,
    pub digits: u64,
    pub places: u64,
    pub power: u64,
    pub lowered: bool,
}

// Why a text is read as no number.
#[derive(Clone, Copy, Debug, PartialEq, Eq)]
pub enum NoNumber {
    NotANumber,
    TooLong,
    TooFar,
}

// At most fifteen digits, as a whole number.
#[derive(Clone, Copy)]
struct Digits {
    n: u64,
    ghost is_short: { n < 1000000000000000 },
}

// The exponent of a power of ten that a float holds exactly.
#[derive(Clone, Copy)]
struct Exponent {
    k: u64,
    ghost is_near: { k ≤ 22 },
}

// One more, but never more than TOO_FAR.
pub(crate) fn count(n: u64) -> u64
    ensures { result ≡ count n }
{
    if n < TOO_FAR { n + 1 } else { TOO_FAR }
}

// The value of a lower-case digit in base 16.
pub(crate) fn digit(byte: u8) -> Option<u8>
    ensures value { result ≡ digit byte }
    ensures upper_bound { IfSome result (λ d. d < 16) }
{
    match byte {
        b'0'..=b'9' => Some(byte - b'0'),
        b'a'..=b'f' => Some(byte - b'a' + 10),
        _ => None,
    }
}

impl Stage {
    fn after_point(self) -> Stage
        ensures { result ≡ after_point self }
    {
        match self {
            Stage::Start | Stage::Signed => Stage::Point,
            Stage::Whole => Stage::Fraction,
            _ => Stage::Other,
        }
    }

    fn after_letter(self) -> Stage
        ensures { result ≡ after_letter self }
    {
        match self {
            Stage::Whole | Stage::Fraction => Stage::Letter,
            _ => Stage::Other,
        }
    }

    // Whether a decimal can end here.
    fn ends(self) -> bool
        ensures { result ≡ ends self }
    {
        matches!(self, Stage::Whole | Stage::Fraction | Stage::Power)
    }
}

// The digits with one more behind them, or TOO_LONG.
fn extended(digits: u64, digit: u8) -> u64
    ensures { result ≡ extended digits digit }
{
    if digits < 100_000_000_000_000 {
        digits * 10 + u64::from(digit)
    } else {
        TOO_LONG
    }
}

// The same of the power, or TOO_FAR.
fn raised(power: u64, digit: u8) -> u64
    ensures { result ≡ raised power digit }
{
    if power < 100 {
        power * 10 + u64::from(digit)
    } else {
        TOO_FAR
    }
}

fn ten_to(exponent: Exponent) -> f64
    ensures { result ≡ round binary64 false (10 ^ exponent.k) 1 }
{
    TENS[exponent.k as usize]
}

// Digits and power are both floats exactly, so their product is rounded once.
fn times(digits: Digits, exponent: Exponent) -> f64
    ensures { result ≡ round binary64 false (digits.n * 10 ^ exponent.k) 1 }
{
    std::num::nearest_u64_to_f64(digits.n) * ten_to(exponent)
}

fn over(digits: Digits, exponent: Exponent) -> f64
    ensures { result ≡ round binary64 false digits.n (10 ^ exponent.k) }
{
    std::num::nearest_u64_to_f64(digits.n) / ten_to(exponent)
}

fn signs(negative: bool, magnitude: f64) -> f64
    ensures { result ≡ signs negative magnitude }
{
    if negative { -magnitude } else { magnitude }
}

impl Digits {
    fn of(n: u64) -> Result<Digits, NoNumber>
        ensures { MatchResult result (λ d. d.n ≡ n) (λ e. (e ≡ TooLong) × (1000000000000000 ≤ n)) }
    {
        if n < TOO_LONG {
            Ok(Digits { n })
        } else {
            Err(NoNumber::TooLong)
        }
    }
}

impl Exponent {
    fn of(k: u64) -> Result<Exponent, NoNumber>
        ensures { MatchResult result (λ e. (e.k ≡ k) × (k ≤ 22)) (λ e. (e ≡ TooFar) × (22 < k)) }
    {
        if k <= 22 {
            Ok(Exponent { k })
        } else {
            Err(NoNumber::TooFar)
        }
    }
}

// The digits times ten as often as `up` says, and divided by ten as often as `down` says.
fn scaled(negative: bool, digits: Digits, up: u64, down: u64) -> Result<f64, NoNumber>
    ensures { result ≡ scaled negative digits.n up down }
{
    if up >= down {
        let exponent = Exponent::of(up - down)?;
        Ok(signs(negative, times(digits, exponent)))
    } else {
        let exponent = Exponent::of(down - up)?;
        Ok(signs(negative, over(digits, exponent)))
    }
}

impl Decimal {
    pub const START: Decimal = Decimal {
        stage: Stage::Start,
        negative: false,
        digits: 0,
        places: 0,
        power: 0,
        lowered: false,
    };

    fn at_stage(self, stage: Stage) -> Decimal
        ensures { result ≡ at_stage self stage }
    {
        Decimal { stage, ..self }
    }

    fn signed(self, minus: bool) -> Decimal
        ensures { result ≡ signed self minus }
    {
        Decimal {
            stage: Stage::Signed,
            negative: minus,
            ..self
        }
    }

    fn power_signed(self, minus: bool) -> Decimal
        ensures { result ≡ power_signed self minus }
    {
        Decimal {
            stage: Stage::LetterSigned,
            lowered: minus,
            ..self
        }
    }

    fn with_sign(self, minus: bool) -> Decimal
        ensures { result ≡ with_sign self minus }
    {
        match self.stage {
            Stage::Start => self.signed(minus),
            Stage::Letter => self.power_signed(minus),
            _ => self.at_stage(Stage::Other),
        }
    }

    fn with_whole(self, digit: u8) -> Decimal
        ensures { result ≡ with_whole self digit }
    {
        Decimal {
            stage: Stage::Whole,
            digits: extended(self.digits, digit),
            ..self
        }
    }

    fn with_fraction(self, digit: u8) -> Decimal
        ensures { result ≡ with_fraction self digit }
    {
        Decimal {
            stage: Stage::Fraction,
            digits: extended(self.digits, digit),
            places: count(self.places),
            ..self
        }
    }

    fn with_power(self, digit: u8) -> Decimal
        ensures { result ≡ with_power self digit }
    {
        Decimal {
            stage: Stage::Power,
            power: raised(self.power, digit),
            ..self
        }
    }

    fn with_digit(self, digit: u8) -> Decimal
        ensures { result ≡ with_digit self digit }
    {
        match self.stage {
            Stage::Start | Stage::Signed | Stage::Whole => self.with_whole(digit),
            Stage::Point | Stage::Fraction => self.with_fraction(digit),
            Stage::Letter | Stage::LetterSigned | Stage::Power => self.with_power(digit),
            Stage::Other => self,
        }
    }

    pub(crate) fn with(self, byte: u8) -> Decimal
        ensures { result ≡ decimal_with self byte }
    {
        match byte {
            b'0'..=b'9' => self.with_digit(byte - b'0'),
            b'.' => self.at_stage(self.stage.after_point()),
            b'e' | b'E' => self.at_stage(self.stage.after_letter()),
            b'+' | b'-' => self.with_sign(byte == b'-'),
            _ => self.at_stage(Stage::Other),
        }
    }

    fn value(self) -> Result<f64, NoNumber>
        ensures { result ≡ value self }
    {
        let digits = Digits::of(self.digits)?;
        if (self.places >= TOO_FAR) | (self.power >= TOO_FAR) {
            Err(NoNumber::TooFar)
        } else if self.lowered {
            scaled(self.negative, digits, 0, self.places + self.power)
        } else {
            scaled(self.negative, digits, self.power, self.places)
        }
    }

    pub(crate) fn number(self) -> Result<f64, NoNumber>
        ensures { result ≡ number self }
    {
        if self.stage.ends() {
            self.value()
        } else {
            Err(NoNumber::NotANumber)
        }
    }
}
