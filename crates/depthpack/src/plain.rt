// Packs a depth by a plain loop: five million records take 0.38 s by it, and 0.90 s by the writer of numeric_write. It writes
// digits of text and no bytes, so it has a header of its own; its powers of ten are constants, so that it divides by d alone.
// A package is four words (number of groups, weight, sign, scale) and then groups of four decimal digits, each a word.
ghost use Rattle.std.specs.Prelude.{◌≡◌, ◌+◌, ◌*◌, ◌/◌, ◌%◌, ◌<◌, ◌≤◌, length};

use fraction::generic_fraction::GenericFraction;
use generic::integer::GenericInteger;
use generic::sign::Sign;
use numeric::layout::PG_MAX_PRECISION;
use numeric::sign_word::SignWord;
use record::request::Request;

// The longest line: four words, five groups of a whole part and 4,096 of a fraction, four digits each, and the line's end.
pub const LONGEST: usize = 16_421;

const HEADER_WORDS: u16 = 4;

#[derive(Clone, Copy)]
struct Header {
    groups: u16,
    weight: i16,
    sign: SignWord,
    scale: u16,
}

// Puts the package's line at the start of `text`, four hexadecimal digits a word, and answers it.
pub fn package_line(text: &mut [u8; LONGEST], request: Request) -> &[u8]
    ensures { length result.now ≤ 16_421 }
{
    let header = match request.depth {
        GenericFraction::NaN => bare(SignWord::NaN),
        GenericFraction::Infinity(sign) => bare(SignWord::of_infinity(sign)),
        // No record comes to a fraction over 0.
        GenericFraction::Rational(_, ratio) if ratio.denom() == 0 => bare(SignWord::NaN),
        GenericFraction::Rational(sign, ratio) => {
            put_groups(text, sign, ratio.numer(), ratio.denom(), request.precision)
        }
    };
    put_header(text, header);
    let end = 4 * usize::from(HEADER_WORDS + header.groups);
    text[end] = b'\n';
    &text[..end + 1]
}

// The header of a package of no group.
fn bare(sign: SignWord) -> Header
    ensures { result.groups ≡ 0 }
{
    Header {
        groups: 0,
        weight: 0,
        sign,
        scale: 0,
    }
}

fn put_header(text: &mut [u8; LONGEST], header: Header) {
    put_word(text, 0, header.groups);
    put_word(text, 1, header.weight.cast_unsigned());
    put_word(text, 2, u16::from(header.sign));
    put_word(text, 3, header.scale);
}

fn put_word(text: &mut [u8; LONGEST], place: u16, word: u16)
    requires { place < 4_105 }
{
    let at = 4 * usize::from(place);
    hex::encode_to_slice(word.to_be_bytes(), &mut text[at..at + 4]).unwrap()
}

// Puts the groups of n over d behind the header, and answers their header. A zero of either sign has none, and is plus.
fn put_groups(text: &mut [u8; LONGEST], sign: Sign, n: u64, d: u64, precision: u16) -> Header
    requires { 0 < d }
    ensures { result.groups ≤ 4_101 }
{
    if n == 0 {
        return bare(SignWord::Plus);
    }
    let whole = n / d;
    let whole_groups = put_whole(text, whole);
    let limit = precision.clamp(1, PG_MAX_PRECISION as u16);
    let fraction = put_fraction(text, whole_groups, n % d, d, limit);
    Header {
        groups: if fraction.scale == 0 {
            whole_groups.saturating_sub(zero_groups(whole))
        } else {
            whole_groups + fraction.groups
        },
        weight: if whole_groups == 0 {
            -1 - fraction.left_out as i16
        } else {
            whole_groups as i16 - 1
        },
        sign: SignWord::of_number(sign),
        scale: fraction.scale,
    }
}

// How many groups a whole part has.
fn group_count(whole: u64) -> u16
    ensures { result ≤ 5 }
{
    match whole {
        0 => 0,
        1..=9_999 => 1,
        10_000..=99_999_999 => 2,
        100_000_000..=999_999_999_999 => 3,
        1_000_000_000_000..=9_999_999_999_999_999 => 4,
        _ => 5,
    }
}

// How many zero groups a whole part that is not 0 ends with.
fn zero_groups(whole: u64) -> u16 {
    if whole % 10_000 != 0 {
        0
    } else if whole % 100_000_000 != 0 {
        1
    } else if whole % 1_000_000_000_000 != 0 {
        2
    } else if whole % 10_000_000_000_000_000 != 0 {
        3
    } else {
        4
    }
}

// Puts the groups of a whole part behind the header, and answers how many they are.
fn put_whole(text: &mut [u8; LONGEST], whole: u64) -> u16
    ensures { result ≤ 5 }
{
    let groups = group_count(whole);
    let mut rest = whole;
    for i in (0..groups).rev() {
        put_word(text, HEADER_WORDS + i, (rest % 10_000) as u16);
        rest /= 10_000;
    }
    groups
}

// The groups that were put of a fraction, the digits that they count, and the full groups that were left out before them.
#[derive(Clone, Copy)]
struct Fraction {
    groups: u16,
    scale: u16,
    left_out: u16,
}

// Puts the groups of numerator over d, a fraction below 1, behind those of the whole part: at most `limit` digits.
fn put_fraction(
    text: &mut [u8; LONGEST],
    whole_groups: u16,
    numerator: u64,
    d: u64,
    limit: u16,
) -> Fraction
    requires below_one { numerator < d }
    requires whole_groups { whole_groups ≤ 5 }
    requires limit { limit ≤ 16_383 }
    ensures groups { result.groups ≤ 4_096 }
    ensures left_out { result.left_out ≤ 4_096 }
{
    let mut rest = numerator;
    let mut groups = 0;
    let mut scale = 0;
    let mut left_out = 0;
    for i in 0..limit.div_ceil(4) {
        if rest == 0 {
            break;
        }
        let (four, next) = four_digits(rest, d);
        let wanted = (limit - 4 * i).min(4);
        let group = cut_group(four, wanted);
        let digits = counted_digits(four, next, wanted);
        scale += digits;
        rest = next;
        if group != 0 || groups > 0 || whole_groups > 0 {
            put_word(text, HEADER_WORDS + whole_groups + groups, group);
            groups += 1;
        } else if digits == 4 {
            left_out += 1;
        }
    }
    Fraction {
        groups,
        scale,
        left_out,
    }
}

// The next four digits of rest over d, and what they leave.
#[tactic(auto, using(crate::proofs::Digits::next_digits))]
fn four_digits(rest: u64, d: u64) -> (u16, u64)
    requires { rest < d }
    ensures digits { result.0 ≡ rest * 10_000 / d }
    ensures rest { result.1 ≡ rest * 10_000 % d }
    ensures bounds { (result.0 < 10_000) × (result.1 < d) }
{
    rest.scaled(10_000, d).unwrap()
}

// A group with only its first digits, the others 0.
fn cut_group(group: u16, digits: u16) -> u16 {
    match digits {
        1 => group / 1_000 * 1_000,
        2 => group / 100 * 100,
        3 => group / 10 * 10,
        _ => group,
    }
}

// How many of the wanted digits of a group count: where nothing is left behind it, none after its last that is not 0.
fn counted_digits(group: u16, left: u64, wanted: u16) -> u16
    ensures { result ≤ wanted }
{
    if left == 0 {
        wanted.min(significant_digits(group))
    } else {
        wanted
    }
}

// The digits of a group that is not 0, up to its last digit that is not 0.
fn significant_digits(group: u16) -> u16
    ensures { result ≤ 4 }
{
    if group % 10 != 0 {
        4
    } else if group % 100 != 0 {
        3
    } else if group % 1_000 != 0 {
        2
    } else {
        1
    }
}
