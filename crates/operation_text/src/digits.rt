//! Numbers read in one pass, as those of most lines: what isn't read so says nothing.
ghost use Rattle.std.specs.Prelude.{◌≡◌, ◌≤◌, ◌<◌, ℕ, Some, false, IfSome, get_or, length, take};
ghost use Rattle.std.specs.Char.{digit_value};
ghost use Rattle.operation_text.specs.Words.{words, words_behind, first_field, is_space};
ghost use Rattle.operation_text.specs.Numbers.{numeral, numeral_after};

/// A number of that many digits, of any radix up to 16, has at most 60 bits.
const MOST_DIGITS: usize = 15;

/// The hexadecimal digit's value, 16 where it is none.
#[inline(always)]
fn digit_of(c: u8) -> u64
    ensures { result < 16 → digit_value c ≡ result }
{
    u64::from(match c {
        b'0'..=b'9' => c - b'0',
        b'A'..=b'F' => c - b'A' + 10,
        b'a'..=b'f' => c - b'a' + 10,
        _ => 16,
    })
}

/// How many of the line's first bytes are looked at.
#[inline(always)]
fn few(line: &[u8]) -> usize
    ensures line { result ≤ length line.now }
    ensures few { result ≤ 15 }
{
    if line.len() < MOST_DIGITS {
        line.len()
    } else {
        MOST_DIGITS
    }
}

/// The number that the first digits of the line write, and how many they are: no more than surely fit.
#[inline(always)]
fn first_digits(line: &[u8], radix: u64) -> (u64, usize)
    requires low { 2 ≤ radix }
    requires high { radix ≤ 16 }
    ensures value { (most : ℕ) → result.0 ≤ most → numeral_after radix most 0 (take result.1 line.now) ≡ Some result.0 }
    ensures digits { (i : ℕ) → i < result.1 → is_space (get_or line.now i 0) ≡ false }
    ensures fits { result.1 ≤ length line.now }
{
    let most = few(line);
    let mut number: u64 = 0;
    let mut count = 0;
    while count < most {
        let digit = digit_of(line[count]);
        if digit >= radix {
            break;
        }
        number = number * radix + digit;
        count += 1;
    }
    (number, count)
}

/// The number that the first word of the line spells, and what is behind it.
#[inline(always)]
fn first_number(line: &[u8], radix: u64) -> Option<(u64, Option<&[u8]>)>
    requires low { 2 ≤ radix }
    requires high { radix ≤ 16 }
    ensures { IfSome result (λ s. (most : ℕ) → s.0 ≤ most → first_field (numeral radix most) (words line.now) ≡ Some (s.0, words_behind s.1)) }
{
    let (number, count) = first_digits(line, radix);
    if count == 0 || (count > 1 && line[0] == b'0') {
        return None;
    }
    if count == line.len() {
        return Some((number, None));
    }
    if line[count] != b' ' {
        return None;
    }
    Some((number, Some(&line[count + 1..])))
}

/// The number that the next word spells, of at most `most`, and what is behind it.
#[inline(always)]
pub(crate) fn quick_number(
    rest: Option<&[u8]>,
    radix: u32,
    most: u64,
) -> Option<(u64, Option<&[u8]>)>
    requires { 2 ≤ radix }
    ensures field { IfSome result (λ s. first_field (numeral radix most) (words_behind rest.entry) ≡ Some (s.0, words_behind s.1)) }
    ensures range { IfSome result (λ s. s.0 ≤ most) }
{
    if radix > 16 {
        return None;
    }
    let (number, behind) = first_number(rest?, u64::from(radix))?;
    if number > most {
        return None;
    }
    Some((number, behind))
}
