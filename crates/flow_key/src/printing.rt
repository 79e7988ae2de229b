//! Numbers and addresses written into a buffer: each function writes at `at` and answers the place after it.

ghost use Rattle.std.specs.Prelude.{◌≡◌, ◌≤◌, ◌<◌, ◌+◌, ◌^◌, ◌++◌, ◌∷◌, [], ℕ, length, take};
ghost use Rattle.std.specs.Fmt.{decimal};
ghost use Rattle.flow_key.specs.KeyText.{dotted};

fn put_byte(out: &mut [u8], at: usize, b: u8) -> usize
    requires { at < length out.old }
    ensures place { result ≡ at + 1 }
    ensures text { take result out.new ≡ take at out.old ++ b ∷ [] }
{
    out[at] = b;
    at + 1
}

pub(crate) fn put_space(out: &mut [u8], at: usize) -> usize
    requires { at < length out.old }
    ensures place { result ≡ at + 1 }
    ensures text { take result out.new ≡ take at out.old ++ 32 ∷ [] }
{
    put_byte(out, at, b' ')
}

fn put_dot(out: &mut [u8], at: usize) -> usize
    requires { at < length out.old }
    ensures place { result ≡ at + 1 }
    ensures text { take result out.new ≡ take at out.old ++ 46 ∷ [] }
{
    put_byte(out, at, b'.')
}

fn put_number(out: &mut [u8], at: usize, n: u16) -> usize
    requires { at + length (decimal n) ≤ length out.old }
    ensures place { result ≡ at + length (decimal n) }
    ensures text { take result out.new ≡ take at out.old ++ decimal n }
{
    if n < 10 {
        put_byte(out, at, b'0' + n as u8)
    } else {
        let at = put_number(out, at, n / 10);
        put_byte(out, at, b'0' + (n % 10) as u8)
    }
}

pub(crate) fn put_octet(out: &mut [u8], at: usize, n: u8) -> usize
    requires { at + 3 ≤ length out.old }
    ensures place { result ≡ at + length (decimal n) }
    ensures short { length (decimal n) ≤ 3 }
    ensures text { take result out.new ≡ take at out.old ++ decimal n }
{
    put_number(out, at, n as u16)
}

pub(crate) fn put_port(out: &mut [u8], at: usize, n: u16) -> usize
    requires { at + 5 ≤ length out.old }
    ensures place { result ≡ at + length (decimal n) }
    ensures short { length (decimal n) ≤ 5 }
    ensures text { take result out.new ≡ take at out.old ++ decimal n }
{
    put_number(out, at, n)
}

pub(crate) fn put_address(out: &mut [u8], at: usize, bytes: &[u8; 4]) -> usize
    requires { at + 15 ≤ length out.old }
    ensures place { result ≡ at + length (dotted bytes.now) }
    ensures short { length (dotted bytes.now) ≤ 15 }
    ensures text { take result out.new ≡ take at out.old ++ dotted bytes.now }
{
    let at = put_octet(out, at, bytes[0]);
    let at = put_dot(out, at);
    let at = put_octet(out, at, bytes[1]);
    let at = put_dot(out, at);
    let at = put_octet(out, at, bytes[2]);
    let at = put_dot(out, at);
    put_octet(out, at, bytes[3])
}
