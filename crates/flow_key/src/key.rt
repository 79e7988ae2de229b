//! The key of a flow.

ghost use Rattle.std.specs.Prelude.{◌≡◌, ◌≤◌, take, IfSome, IfNone, Some};
ghost use Rattle.std.specs.Option.{option_copied, option_map};
ghost use Rattle.flow_key.specs.Words.{words_left};
ghost use Rattle.flow_key.specs.KeyText.{address_word, key_words, key_of, key_text, key_bytes, Fits, IsAddress};

use crate::printing::{put_address, put_octet, put_port, put_space};
use crate::words::{address, cut, end_at, number_at};

/// The key of a flow: every value of the five fields is a key, and two keys are the same where all five are.
///
/// A key has 13 bytes ([`to_bytes`](FlowKey::to_bytes), [`from_bytes`](FlowKey::from_bytes)) and one text
/// ([`print`](FlowKey::print), [`parse`](FlowKey::parse)); two keys share neither.
#[derive(Clone, Copy, Debug, PartialEq, Eq)]
pub struct FlowKey {
    /// The source address, `a.b.c.d` as `[a, b, c, d]`.
    pub src: [u8; 4],
    /// The destination address, in the same order.
    pub dst: [u8; 4],
    /// The number of the protocol.
    pub proto: u8,
    /// The source port.
    pub sport: u16,
    /// The destination port.
    pub dport: u16,
}

#[tactic(auto, unfolding(crate::specs::KeyText::address_word))]
fn address_at(text: Option<&[u8]>) -> Option<([u8; 4], Option<&[u8]>)>
    ensures value { option_map (λ x. (x.0, words_left 32 (option_copied x.1))) result ≡ address_word (words_left 32 (option_copied text.entry)) }
    ensures bytes { IfSome result (λ x. IsAddress x.0) }
{
    match text {
        None => None,
        Some(text) => {
            let (word, rest) = cut(text, b' ');
            match address(word) {
                None => None,
                Some(bytes) => Some((bytes, rest)),
            }
        }
    }
}

impl FlowKey {
    // The key of five words at the front of a text, and what is left of it.
    #[tactic(auto, unfolding(crate::specs::KeyText::key_words))]
    fn of_words(text: Option<&[u8]>) -> Option<(FlowKey, Option<&[u8]>)>
        ensures value { option_map (λ x. (x.0, words_left 32 (option_copied x.1))) result ≡ key_words (words_left 32 (option_copied text.entry)) }
        ensures fits { IfSome result (λ x. Fits x.0) }
    {
        let (src, rest) = address_at(text)?;
        let (dst, rest) = address_at(rest)?;
        let (proto, rest) = number_at(rest, b' ', 255)?;
        let (sport, rest) = number_at(rest, b' ', 65535)?;
        let (dport, rest) = number_at(rest, b' ', 65535)?;
        let key = FlowKey {
            src,
            dst,
            proto: proto as u8,
            sport: sport as u16,
            dport: dport as u16,
        };
        Some((key, rest))
    }

    #[tactic(auto, unfolding(crate::specs::KeyText::key_of))]
    fn read(text: &[u8]) -> Option<FlowKey>
        ensures value { result ≡ key_of text.now }
        ensures fits { IfSome result Fits }
    {
        let (key, rest) = FlowKey::of_words(Some(text))?;
        end_at(rest, b' ')?;
        Some(key)
    }

    /// The key whose text this is: `a.b.c.d a.b.c.d proto sport dport`, with one space between each two words and
    /// nothing before or after them, addresses of numbers from 0 to 255, a protocol from 0 to 255 and ports from 0 to
    /// 65535, each number in decimal digits without leading zeros.
    ///
    /// `None` exactly where the text is no key's. Every key's text is read as that key, and no other text is.
    ///
    /// ```
    /// FlowKey::parse(b"10.0.0.1 10.0.0.2 6 2 1")      // source 10.0.0.1, destination 10.0.0.2, protocol 6, ports 2 and 1
    /// FlowKey::parse(b"10.0.0.1 10.0.0.2 06 2 1")     // None
    /// FlowKey::parse(b"10.0.0.1  10.0.0.2 6 2 1")     // None
    /// ```
    pub fn parse(text: &[u8]) -> Option<FlowKey>
        ensures found { IfSome result (λ k. text.now ≡ key_text k) }
        ensures fits { IfSome result Fits }
        ensures none { IfNone result ((k : FlowKey) → Fits k → text.now ≡ key_text k → ⊥) }
        ensures only { (k : FlowKey) → Fits k → text.now ≡ key_text k → result ≡ Some k }
    {
        FlowKey::read(text)
    }

    /// The 13 bytes of the key: source address, destination address, protocol, source port and destination port, the
    /// ports with their high byte first.
    ///
    /// ```
    /// // the key of "10.0.0.1 10.0.0.2 6 2 1"
    /// key.to_bytes()      // [10, 0, 0, 1, 10, 0, 0, 2, 6, 0, 2, 0, 1]
    /// ```
    pub fn to_bytes(&self) -> [u8; 13]
        ensures { result ≡ key_bytes self.now }
    {
        let [a, b, c, d] = self.src;
        let [e, f, g, h] = self.dst;
        let [s, t] = self.sport.to_be_bytes();
        let [u, v] = self.dport.to_be_bytes();
        [a, b, c, d, e, f, g, h, self.proto, s, t, u, v]
    }

    /// The key whose 13 bytes these are. Every 13 bytes are the bytes of one key, which [`to_bytes`](FlowKey::to_bytes)
    /// gives back, and the bytes of a key give that key.
    ///
    /// ```
    /// FlowKey::from_bytes(&[10, 0, 0, 1, 10, 0, 0, 2, 6, 0, 2, 0, 1])     // the key of "10.0.0.1 10.0.0.2 6 2 1"
    /// ```
    pub fn from_bytes(bytes: &[u8; 13]) -> FlowKey
        ensures bytes { key_bytes result ≡ bytes.now }
        ensures only { (k : FlowKey) → Fits k → bytes.now ≡ key_bytes k → result ≡ k }
    {
        FlowKey {
            src: [bytes[0], bytes[1], bytes[2], bytes[3]],
            dst: [bytes[4], bytes[5], bytes[6], bytes[7]],
            proto: bytes[8],
            sport: u16::from_be_bytes([bytes[9], bytes[10]]),
            dport: u16::from_be_bytes([bytes[11], bytes[12]]),
        }
    }

    /// Writes the one text of the key at the front of `out` and answers its length in bytes, at most 47.
    ///
    /// The text is the one that [`parse`](FlowKey::parse) describes and reads as this key. Nothing is said of the bytes
    /// of `out` after it.
    ///
    /// ```
    /// // the key of "10.0.0.1 10.0.0.2 6 2 1"
    /// let mut out = [0; 47];
    /// let length = key.print(&mut out);       // 23
    /// &out[..length]                          // b"10.0.0.1 10.0.0.2 6 2 1"
    /// ```
    pub fn print(&self, out: &mut [u8; 47]) -> usize
        ensures within { result ≤ 47 }
        ensures text { take result out.new ≡ key_text self.now }
    {
        let at = put_address(out, 0, &self.src);
        let at = put_space(out, at);
        let at = put_address(out, at, &self.dst);
        let at = put_space(out, at);
        let at = put_octet(out, at, self.proto);
        let at = put_space(out, at);
        let at = put_port(out, at, self.sport);
        let at = put_space(out, at);
        put_port(out, at, self.dport)
    }
}
