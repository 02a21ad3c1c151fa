//! Reads a weight in thousandths.

ghost use Rattle.std.specs.Prelude.{◌≡◌, ◌≤◌, ◌*◌, ◌-◌, IfSome};
ghost use Rattle.std.specs.List.{list_all};
ghost use Rattle.mime.specs.Grammar.{IsToken};
ghost use Rattle.mime_http.specs.{Digits.worth, Weight.thousandths_of, Digits.is_digit_or_dot, Digits.BeginsWithWeight};
ghost use Rattle.mime_http.specs.{Digits.IsLoneWeight};

/// Returns the value of the digits at the start of what follows a dot, in thousandths: 500 for `5` and for `5x`.
fn decimals_of(bytes: &[u8]) -> u16
    ensures { result ≡ worth 100 bytes.now }
{
    let mut unit = 100;
    let mut sum = 0;
    for &byte in bytes {
        if !byte.is_ascii_digit() {
            return sum;
        }
        sum += unit * u16::from(byte - b'0');
        unit /= 10;
    }
    sum
}

/// Returns the value of the first digit after a dot, in thousandths: 500 for `5`.
#[inline(always)]
fn tenths(digit: u8) -> u16
    requires { 48 ≤ digit }
    ensures { result ≡ 100 * (digit - 48) }
{
    100 * u16::from(digit - b'0')
}

/// Returns a weight in thousandths: 500 for `0.5`. A string that isn't a weight counts as the number with which it begins, at most 1, or as
/// 0 if it begins with no number. As in most libraries, `.2` is 200, `2` is 1000 and `high` is 0.
#[tactic(auto, using(std::proofs::lemmas::Grind::common_steps, crate::proofs::Numbers::read_is))]
pub(crate) fn thousandths(weight: &[u8]) -> u16
    ensures { result ≡ thousandths_of weight.now }
{
    // Most weights have one decimal.
    if let [b'0', b'.', digit @ b'0'..=b'9'] = weight {
        return tenths(*digit);
    }
    for (at, byte) in weight.iter().enumerate() {
        match byte {
            b'0' => {}
            b'1'..=b'9' => return 1000,
            b'.' => return decimals_of(&weight[at + 1..]),
            _ => return 0,
        }
    }
    0
}

/// Returns `true` if all bytes are digits or dots.
fn are_digits_or_dots(bytes: &[u8]) -> bool
    ensures { result ≡ list_all is_digit_or_dot bytes.now }
{
    bytes
        .iter()
        .all(|byte| byte.is_ascii_digit() || *byte == b'.')
}

/// Returns the weight in thousandths if it consists of digits and dots, else `None`. This function isn't inlined, since most weights have
/// one decimal.
#[inline(never)]
fn number(weight: &[u8]) -> Option<u16>
    ensures { IfSome result (λ number. IsToken weight.now × (number ≡ thousandths_of weight.now)) }
{
    // Most others have two decimals.
    if let [b'0', b'.', tenth @ b'0'..=b'9', hundredth @ b'0'..=b'9'] = weight {
        return Some(tenths(*tenth) + 10 * u16::from(*hundredth - b'0'));
    }
    if weight.is_empty() || !are_digits_or_dots(weight) {
        return None;
    }
    Some(thousandths(weight))
}

/// Returns what follows `;q=` or `; q=`, or `None` if a range's parameters don't begin so.
#[inline(always)]
fn first_weight(parameters: &[u8]) -> Option<&[u8]>
    ensures { IfSome result (λ weight. BeginsWithWeight parameters.now weight.now) }
{
    match parameters {
        [b';', b'q', b'=', weight @ ..] => Some(weight),
        [b';', b' ', b'q', b'=', weight @ ..] => Some(weight),
        _ => None,
    }
}

/// The length of the parameters `; q=0.001`, in bytes. Few parameters that are only a weight are longer.
const LONGEST: usize = 9;

/// Returns the weight in thousandths if a range's only parameter is a weight of digits and dots: 500 for `;q=0.5`. Returns `None` for
/// longer parameters. `parameters` is the text of the parameters, with the semicolon before them.
#[inline(always)]
pub(crate) fn lone_weight(parameters: &[u8]) -> Option<u16>
    ensures { IfSome result (IsLoneWeight parameters.now) }
{
    if parameters.len() > LONGEST {
        return None;
    }
    let weight = first_weight(parameters)?;
    // Most weights have one decimal.
    if let [b'0', b'.', digit @ b'0'..=b'9'] = weight {
        return Some(tenths(*digit));
    }
    number(weight)
}
