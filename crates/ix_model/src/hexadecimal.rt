ghost use Rattle.std.specs.Prelude.{◌≡◌, ◌↔◌, ◌<◌, IfSome, IsSome, IsTrue, None};
ghost use Rattle.std.specs.Char.{digit_value};
ghost use Rattle.ix_model.specs.Grammars.Breach.{IsCodePoint};
ghost use Rattle.ix_model.specs.Matching.Codes.{code_value};
ghost use Rattle.ix_model.specs.Spelling.Spells.{IsHex, is_hex_digit};

/// The character whose number has these hexadecimal digits, of either case and of any length. `None` where no character
/// has the number: it is over 10FFFF, or from D800 to DFFF.
pub fn code_point(digits: &[char]) -> Option<char>
    requires { IsHex digits.now }
    ensures some { IfSome result (λ c. c ≡ code_value digits.now) }
    ensures known { IsSome result ↔ IsCodePoint digits.now }
{
    char::from_u32(number(digits)?)
}

// The number that the digits are, where it is at most 10FFFF.
fn number(digits: &[char]) -> Option<u32>
    requires { IsHex digits.now }
    ensures some { IfSome result (λ n. n ≡ code_value digits.now) }
    ensures none { result ≡ None → 0x10_FFFF < code_value digits.now }
{
    let mut number = 0;
    for digit in digits {
        number = 16 * number + value(*digit);
        if number > char::MAX as u32 {
            return None;
        }
    }
    Some(number)
}

#[tactic(auto, using(crate::proofs::HexDigits::hex_value))]
fn value(digit: char) -> u32
    requires { IsTrue (is_hex_digit digit) }
    ensures value { result ≡ digit_value digit }
    ensures small { result < 16 }
{
    digit.to_digit(16).unwrap()
}
