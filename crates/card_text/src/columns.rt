// Decimal numbers in fixed columns of bytes (rule 14.1): right-justified, no leading zeros. Definitions in specs/Columns.

ghost use Rattle.std.specs.Prelude.{ℕ, ◌+◌, ◌*◌, ◌/◌, ◌%◌, ◌≡◌, ◌≢◌, ◌≤◌, ◌<◌, Option, Some, IfSome, [], ◌∷◌, length, take, drop, get_or, set, replicate};
ghost use Rattle.std.specs.Int.{w64, from_le_bytes};
ghost use Rattle.std.specs.Bool.{OnTrue};
ghost use Rattle.card_text.specs.Columns.{digit, place_byte, column, number_of, number_behind, max_number};

// ---- reading

// Eight blanks.
const BLANKS: u64 = 0x2020_2020_2020_2020;

// Eight columns from i on as a word, the first of them lowest.
#[inline(always)]
fn word_at(columns: &[u8], i: usize) -> u64
    requires { i + 8 ≤ length columns.now }
    ensures { result ≡ from_le_bytes w64 (take 8 (drop i columns.now)) }
{
    u64::from_le_bytes([
        columns[i],
        columns[i + 1],
        columns[i + 2],
        columns[i + 3],
        columns[i + 4],
        columns[i + 5],
        columns[i + 6],
        columns[i + 7],
    ])
}

// Whether eight blanks stand there.
#[inline(always)]
fn has_eight_blanks(columns: &[u8], i: usize) -> bool
    requires { i + 8 ≤ length columns.now }
    ensures { OnTrue result (number_of (drop i columns.now) ≡ number_of (drop (i + 8) columns.now)) }
{
    word_at(columns, i) == BLANKS
}

// Whether four blanks stand there.
#[inline(always)]
fn has_four_blanks(columns: &[u8], i: usize) -> bool
    requires { i + 4 ≤ length columns.now }
    ensures { OnTrue result (number_of (drop i columns.now) ≡ number_of (drop (i + 4) columns.now)) }
{
    let four = [columns[i], columns[i + 1], columns[i + 2], columns[i + 3]];
    u32::from_le_bytes(four) == 0x2020_2020
}

// Where blanks end, by eights: fewer than eight bytes more may be blanks.
fn behind_eights(columns: &[u8]) -> usize
    ensures bound { result ≤ length columns.now }
    ensures same { number_of (drop result columns.now) ≡ number_of columns.now }
{
    let mut i = 0;
    while columns.len() - i >= 8 {
        if !has_eight_blanks(columns, i) {
            return i;
        }
        i += 8;
    }
    i
}

// Where the first byte stands that is no blank.
fn behind_blanks(columns: &[u8]) -> usize
    ensures bound { result ≤ length columns.now }
    ensures same { number_of (drop result columns.now) ≡ number_of columns.now }
    ensures stops { get_or columns.now result 0 ≢ 32 }
{
    let mut i = behind_eights(columns);
    while i < columns.len() && columns[i] == b' ' {
        i += 1;
    }
    i
}

// The number whose digits so far say v, where the bytes are its others.
fn number_behind(v: u64, digits: &[u8]) -> Option<u64>
    ensures { result ≡ number_behind v digits.now }
{
    let mut number = v;
    for b in digits {
        if !b.is_ascii_digit() {
            return None;
        }
        number = number.checked_mul(10)?.checked_add(u64::from(*b - b'0'))?;
    }
    Some(number)
}

/// The number in these columns; none where they do not hold one number of 64 bits, right-justified behind blanks (rule 14.1).
#[inline(never)]
pub fn number_of(columns: &[u8]) -> Option<u64>
    ensures { result ≡ number_of columns.now }
{
    let i = behind_blanks(columns);
    if i == columns.len() {
        return None;
    }
    let first = columns[i];
    if !first.is_ascii_digit() {
        return None;
    }
    if first == b'0' {
        return (i + 1 == columns.len()).then_some(0);
    }
    number_behind(u64::from(first - b'0'), &columns[i + 1..])
}

// ---- reading few columns: up to four digits, which need no test of their size

// The number whose digits so far say v, where one byte more is its last digit.
#[inline(always)]
fn with_last(v: u64, last: u8) -> Option<u64>
    requires { v < 1844674407370955140 }
    ensures { result ≡ number_behind v (last ∷ []) }
{
    if !last.is_ascii_digit() {
        return None;
    }
    Some(v * 10 + u64::from(last - b'0'))
}

// Where two bytes more are its last digits.
#[inline(always)]
fn with_two(v: u64, third: u8, last: u8) -> Option<u64>
    requires { v < 184467440737095514 }
    ensures { result ≡ number_behind v (third ∷ last ∷ []) }
{
    if !third.is_ascii_digit() {
        return None;
    }
    with_last(v * 10 + u64::from(third - b'0'), last)
}

// Where three bytes more are its last digits.
#[inline(always)]
fn with_three(v: u64, second: u8, third: u8, last: u8) -> Option<u64>
    requires { v < 18446744073709551 }
    ensures { result ≡ number_behind v (second ∷ third ∷ last ∷ []) }
{
    if !second.is_ascii_digit() {
        return None;
    }
    with_two(v * 10 + u64::from(second - b'0'), third, last)
}

// Where four bytes more are its last digits.
#[inline(always)]
fn with_four(v: u64, first: u8, second: u8, third: u8, last: u8) -> Option<u64>
    requires { v < 1844674407370955 }
    ensures { result ≡ number_behind v (first ∷ second ∷ third ∷ last ∷ []) }
{
    if !first.is_ascii_digit() {
        return None;
    }
    with_three(v * 10 + u64::from(first - b'0'), second, third, last)
}

// The number in one column.
#[inline(always)]
fn number_in_one(last: u8) -> Option<u64>
    ensures { result ≡ number_of (last ∷ []) }
{
    if !last.is_ascii_digit() {
        return None;
    }
    Some(u64::from(last - b'0'))
}

// The number in two columns.
#[inline(always)]
fn number_in_two(third: u8, last: u8) -> Option<u64>
    ensures { result ≡ number_of (third ∷ last ∷ []) }
{
    if third == b' ' {
        return number_in_one(last);
    }
    if !third.is_ascii_digit() {
        return None;
    }
    if third == b'0' {
        return None;
    }
    with_last(u64::from(third - b'0'), last)
}

// The number in three columns.
#[inline(always)]
fn number_in_three(second: u8, third: u8, last: u8) -> Option<u64>
    ensures { result ≡ number_of (second ∷ third ∷ last ∷ []) }
{
    if second == b' ' {
        return number_in_two(third, last);
    }
    if !second.is_ascii_digit() {
        return None;
    }
    if second == b'0' {
        return None;
    }
    with_two(u64::from(second - b'0'), third, last)
}

// The number in four columns, if it has one digit, as most have: one test of all four.
#[inline(always)]
fn digit_in_four(first: u8, second: u8, third: u8, last: u8) -> Option<u64>
    ensures { IfSome result (λ n. number_of (first ∷ second ∷ third ∷ last ∷ []) ≡ Some n) }
{
    let digit = u32::from_be_bytes([first, second, third, last]).wrapping_sub(0x2020_2030);
    if digit >= 10 {
        return None;
    }
    Some(u64::from(digit))
}

// The number in four columns.
#[inline(always)]
fn number_in_four(first: u8, second: u8, third: u8, last: u8) -> Option<u64>
    ensures { result ≡ number_of (first ∷ second ∷ third ∷ last ∷ []) }
{
    if let Some(n) = digit_in_four(first, second, third, last) {
        return Some(n);
    }
    if first == b' ' {
        return number_in_three(second, third, last);
    }
    if !first.is_ascii_digit() {
        return None;
    }
    if first == b'0' {
        return None;
    }
    with_three(u64::from(first - b'0'), second, third, last)
}

// ---- reading 21 columns, four at a time

// What v and four digits behind it say, from i on; none where they are no digits, or v has no room for any four.
#[inline(always)]
fn four_more(v: u64, columns: &[u8], i: usize) -> Option<u64>
    requires { i + 4 ≤ length columns.now }
    ensures { IfSome result (λ n. number_behind v (drop i columns.now) ≡ number_behind n (drop (i + 4) columns.now)) }
{
    if v >= 1_844_674_407_370_955 {
        return None;
    }
    with_four(
        v,
        columns[i],
        columns[i + 1],
        columns[i + 2],
        columns[i + 3],
    )
}

// And eight digits.
#[inline(always)]
fn eight_more(v: u64, columns: &[u8], i: usize) -> Option<u64>
    requires { i + 8 ≤ length columns.now }
    ensures { IfSome result (λ n. number_behind v (drop i columns.now) ≡ number_behind n (drop (i + 8) columns.now)) }
{
    four_more(four_more(v, columns, i)?, columns, i + 4)
}

// The number above 0 that four columns from i on begin with; none where there may be none.
#[inline(always)]
fn begun_in_four(columns: &[u8], i: usize) -> Option<u64>
    requires { i + 4 ≤ length columns.now }
    ensures { IfSome result (λ v. number_of (drop i columns.now) ≡ number_behind v (drop (i + 4) columns.now)) }
{
    let v = number_in_four(columns[i], columns[i + 1], columns[i + 2], columns[i + 3])?;
    if v == 0 {
        return None;
    }
    Some(v)
}

// And that eight columns begin with.
#[inline(always)]
fn begun_in_eight(columns: &[u8], i: usize) -> Option<u64>
    requires { i + 8 ≤ length columns.now }
    ensures { IfSome result (λ v. number_of (drop i columns.now) ≡ number_behind v (drop (i + 8) columns.now)) }
{
    if has_four_blanks(columns, i) {
        return begun_in_four(columns, i + 4);
    }
    four_more(begun_in_four(columns, i)?, columns, i + 4)
}

// The number above 0 in 21 columns; none where there may be none.
#[inline(always)]
fn number_by_fours(columns: &[u8]) -> Option<u64>
    requires { length columns.now ≡ 21 }
    ensures { IfSome result (λ n. number_of columns.now ≡ Some n) }
{
    if has_four_blanks(columns, 0) && columns[4] == b' ' {
        if has_eight_blanks(columns, 5) {
            return begun_in_eight(columns, 13);
        }
        return eight_more(begun_in_eight(columns, 5)?, columns, 13);
    }
    if columns[0] != b' ' {
        return None;
    }
    eight_more(
        eight_more(begun_in_four(columns, 1)?, columns, 5)?,
        columns,
        13,
    )
}

// The number in 21 columns; where it cannot be read four at a time, byte by byte.
#[inline(never)]
fn number_of_long(columns: &[u8]) -> Option<u64>
    requires { length columns.now ≡ 21 }
    ensures { result ≡ number_of columns.now }
{
    match number_by_fours(columns) {
        Some(n) => Some(n),
        None => number_of(columns),
    }
}

// ---- reading a card's columns: `number_of` for their three widths. Most numbers of a card have few digits

/// The number in 2 columns.
#[inline(always)]
pub fn number_of_2(columns: &[u8]) -> Option<u64>
    ensures { result ≡ number_of columns.now }
{
    if columns.len() == 2 {
        return number_in_two(columns[0], columns[1]);
    }
    number_of(columns)
}

/// The number in 4 columns.
#[inline(always)]
pub fn number_of_4(columns: &[u8]) -> Option<u64>
    ensures { result ≡ number_of columns.now }
{
    if columns.len() == 4 {
        return number_in_four(columns[0], columns[1], columns[2], columns[3]);
    }
    number_of(columns)
}

/// The number in 21 columns.
#[inline(always)]
pub fn number_of_21(columns: &[u8]) -> Option<u64>
    ensures { result ≡ number_of columns.now }
{
    if columns.len() != 21 {
        return number_of(columns);
    }
    if has_eight_blanks(columns, 0) && has_eight_blanks(columns, 8) && columns[16] == b' ' {
        return number_in_four(columns[17], columns[18], columns[19], columns[20]);
    }
    number_of_long(columns)
}

// ---- writing

// The digits of 0 to 99, two each.
static PAIRS: [u8; 200] =
    *b"00010203040506070809101112131415161718192021222324252627282930313233343536373839404142434445464748495051525354555657585960616263646566676869707172737475767778798081828384858687888990919293949596979899";

// The same with a blank for a 0 in front.
static FIRST_PAIRS: [u8; 200] =
    *b" 0 1 2 3 4 5 6 7 8 9101112131415161718192021222324252627282930313233343536373839404142434445464748495051525354555657585960616263646566676869707172737475767778798081828384858687888990919293949596979899";

// The last digit. By `as`: it is below 10, and Rust has no `From` from u64 to u8.
fn digit(n: u64) -> u8
    ensures { result ≡ digit (n % 10) }
{
    b'0' + (n % 10) as u8
}

// Puts a number's last two digits in two places.
fn put_pair(out: &mut [u8], at: usize, n: u64)
    requires { at + 2 ≤ length out.old }
    ensures { out.new ≡ set (set out.old (at + 1) (digit (n % 10))) at (digit (n / 10 % 10)) }
{
    let from = (n % 100) as usize * 2;
    let (tens, ones) = (PAIRS[from], PAIRS[from + 1]);
    out[at + 1] = ones;
    out[at] = tens;
}

// Puts a number below 100 in two places.
fn put_first_pair(out: &mut [u8], at: usize, n: u64)
    requires { (at + 2 ≤ length out.old) × (n < 100) }
    ensures { out.new ≡ set (set out.old (at + 1) (digit (n % 10))) at (place_byte (n / 10)) }
{
    let from = n as usize * 2;
    let (tens, ones) = (FIRST_PAIRS[from], FIRST_PAIRS[from + 1]);
    out[at + 1] = ones;
    out[at] = tens;
}

/// Puts n into columns that stand blank: its digits alone are written. Of a number with more digits than columns, the last digits.
pub(crate) fn put_digits(out: &mut [u8], n: u64)
    requires { out.old ≡ replicate (length out.old) 32 }
    ensures { out.new ≡ column (length out.old) n }
{
    let mut rest = n;
    let mut i = out.len();
    // From the right, two at a time: a division for two digits.
    while rest >= 100 && i >= 2 {
        i -= 2;
        put_pair(out, i, rest);
        rest /= 100;
    }
    if i >= 2 {
        put_first_pair(out, i - 2, rest);
    } else if i == 1 {
        out[0] = digit(rest);
    }
}

/// Puts n into the columns. Of a number with more digits than columns, the last digits.
pub fn put_column(out: &mut [u8], n: u64)
    ensures { out.new ≡ column (length out.old) n }
{
    out.fill(b' ');
    put_digits(out, n);
}
