//! Words of a text, and the numbers and addresses that they write.

ghost use Rattle.std.specs.Prelude.{◌≡◌, ◌==◌, ◌∷◌, ◌<◌, ◌^◌, ◌≤◌, IfSome, None, Some, true, ℕ, List};
ghost use Rattle.std.specs.List.{position, position_or_len};
ghost use Rattle.std.specs.Fmt.{decimal};
ghost use Rattle.std.specs.Option.{option_copied, option_map};
ghost use Rattle.std.specs.Str.{bytes_eq};
ghost use Rattle.flow_key.specs.Words.{words_at, words_left, first_word, digits_to, number_to};
ghost use Rattle.flow_key.specs.KeyText.{number_word, no_more, address_of, dotted, IsAddress};

fn find(text: &[u8], at: u8) -> Option<usize>
    ensures { result ≡ position (λ b. b == at) text.now }
{
    text.iter().position(|b| *b == at)
}

/// The first word of a text whose words stand between single bytes `at`, and what is left after the byte that
/// ends it. Nothing is left (`None`) where the word is the last one.
///
/// The word has no byte `at` and may be empty: an empty text has one empty word, and between two bytes `at` next to
/// each other there is an empty word. So what is left as `Some` always has a word.
///
/// ```
/// cut(b"flow 1", b' ')    // (b"flow", Some(b"1"))
/// cut(b"flow ", b' ')     // (b"flow", Some(b""))
/// cut(b"flow", b' ')      // (b"flow", None)
/// ```
pub fn cut(text: &[u8], at: u8) -> (&[u8], Option<&[u8]>)
    ensures { words_at at text.now ≡ result.0.now ∷ words_left at (option_copied result.1) }
{
    match find(text, at) {
        None => (text, None),
        Some(i) => {
            let (front, rest) = text.split_at(i);
            let (_, rest) = rest.split_at(1);
            (front, Some(rest))
        }
    }
}

/// Whether a word is that text, byte for byte.
///
/// ```
/// is(b"host", b"host")    // true
/// is(b"Host", b"host")    // false
/// ```
pub fn is(word: &[u8], text: &[u8]) -> bool
    ensures value { result ≡ bytes_eq word.now text.now }
    ensures same { result ≡ true → word.now ≡ text.now }
{
    word == text
}

// The number from 0 to `most` that the digits before the first byte `at` write, and how many they are. `front` is `most`
// without its last digit: a number below it stays in range with any digit more, and the front itself with one up to
// `last`. So nothing wraps at the top of u64.
fn digits(text: &[u8], at: u8, most: u64) -> Option<(u64, usize)>
    ensures value { option_map (λ x. x.0) result ≡ digits_to most (first_word at text.now) }
    ensures bound { IfSome result (λ x. x.0 ≤ most) }
    ensures ends { IfSome result (λ x. x.1 ≡ position_or_len (λ b. b == at) text.now) }
{
    let front = most / 10;
    let last = most % 10;
    let mut value: u64 = 0;
    let mut count = 0;
    while count < text.len() {
        let b = text[count];
        if b == at {
            return Some((value, count));
        }
        if !b.is_ascii_digit() {
            return None;
        }
        let digit = u64::from(b - b'0');
        if value >= front && (value > front || digit > last) {
            return None;
        }
        value = value * 10 + digit;
        count += 1;
    }
    Some((value, count))
}

/// The number from 0 to `most` that the first word of a text writes, and what is left after the byte that ends it, as
/// by [`cut`] and [`number`], in one pass over the word. `None` where the first word is not the decimal text of such a
/// number.
///
/// ```
/// number_cut(b"255 x", b' ', 255)     // Some((255, Some(b"x")))
/// number_cut(b"255 ", b' ', 255)      // Some((255, Some(b"")))
/// number_cut(b"255", b' ', 255)       // Some((255, None))
/// number_cut(b"256 x", b' ', 255)     // None
/// number_cut(b"01 x", b' ', 255)      // None
/// number_cut(b" x", b' ', 255)        // None
/// ```
pub fn number_cut(text: &[u8], at: u8, most: u64) -> Option<(u64, Option<&[u8]>)>
    ensures value { option_map (λ x. (x.0, words_left at (option_copied x.1))) result ≡ number_word most (words_at at text.now) }
    ensures bound { IfSome result (λ x. x.0 ≤ most) }
    ensures spelled { IfSome result (λ x. words_at at text.now ≡ decimal x.0 ∷ words_left at (option_copied x.1)) }
{
    let Some((n, count)) = digits(text, at, most) else {
        return None;
    };
    if count == 0 {
        return None;
    }
    if text[0] == b'0' && count > 1 {
        return None;
    }
    if count == text.len() {
        return Some((n, None));
    }
    let (_, rest) = text.split_at(count);
    let (_, rest) = rest.split_at(1);
    Some((n, Some(rest)))
}

// A word in which a space stands is no number, so one that ends before the text does is none.
fn number_in(word: &[u8], most: u64) -> Option<u64>
    ensures value { result ≡ number_to most word.now }
    ensures bound { IfSome result (λ n. n ≤ most) }
{
    match number_cut(word, b' ', most) {
        None => None,
        Some((_, Some(_))) => None,
        Some((n, None)) => Some(n),
    }
}

/// The number from 0 to `most` that a word writes: decimal digits, one or more, with no zero in front of others.
/// `None` where the word is not of this form or its number is above `most`.
///
/// The word of a number is its one decimal text, so every other spelling of it is refused.
///
/// ```
/// number(b"255", 255)     // Some(255)
/// number(b"256", 255)     // None
/// number(b"0", 255)       // Some(0)
/// number(b"01", 255)      // None
/// number(b"+1", 255)      // None
/// number(b"", 255)        // None
/// ```
pub fn number(word: &[u8], most: u64) -> Option<u64>
    ensures value { result ≡ number_to most word.now }
    ensures bound { IfSome result (λ n. n ≤ most) }
    ensures spelled { IfSome result (λ n. word.now ≡ decimal n) }
    ensures only { (n : ℕ) → n ≤ most → word.now ≡ decimal n → result ≡ Some n }
{
    number_in(word, most)
}

// The number that the first word writes, and what is left after it.
#[tactic(auto, unfolding(crate::specs::KeyText::number_word))]
pub(crate) fn number_at(text: Option<&[u8]>, at: u8, most: u64) -> Option<(u64, Option<&[u8]>)>
    ensures bound { IfSome result (λ x. x.0 ≤ most) }
    ensures value { option_map (λ x. (x.0, words_left at (option_copied x.1))) result ≡ number_word most (words_left at (option_copied text.entry)) }
{
    match text {
        None => None,
        Some(text) => number_cut(text, at, most),
    }
}

// The word is cut off, since only the clause of `cut` tells that there is one.
pub(crate) fn end_at(text: Option<&[u8]>, at: u8) -> Option<()>
    ensures { result ≡ no_more (words_left at (option_copied text.entry)) }
{
    match text {
        None => Some(()),
        Some(text) => {
            let (_, _) = cut(text, at);
            None
        }
    }
}

#[tactic(auto, unfolding(crate::specs::KeyText::address_of))]
fn address_in(word: &[u8]) -> Option<[u8; 4]>
    ensures value { result ≡ address_of word.now }
    ensures bytes { IfSome result IsAddress }
{
    let (a, rest) = number_at(Some(word), b'.', 255)?;
    let (b, rest) = number_at(rest, b'.', 255)?;
    let (c, rest) = number_at(rest, b'.', 255)?;
    let (d, rest) = number_at(rest, b'.', 255)?;
    end_at(rest, b'.')?;
    Some([a as u8, b as u8, c as u8, d as u8])
}

/// The four bytes of the address that a word writes: four numbers from 0 to 255, each in its one decimal text, with
/// one dot between each two. `None` where the word is not of this form.
///
/// ```
/// address(b"10.0.0.1")    // Some([10, 0, 0, 1])
/// address(b"10.0.0.01")   // None
/// address(b"10.0.0.256")  // None
/// address(b"10.0.0")      // None
/// ```
pub fn address(word: &[u8]) -> Option<[u8; 4]>
    ensures value { result ≡ address_of word.now }
    ensures bytes { IfSome result IsAddress }
    ensures spelled { IfSome result (λ bytes. word.now ≡ dotted bytes) }
    ensures only { (bytes : List ℕ) → IsAddress bytes → word.now ≡ dotted bytes → result ≡ Some bytes }
{
    address_in(word)
}
