// Return addresses: whether the bytes of one are as its kind asks, and whether their number is.
#![tactic(auto)]

ghost use Rattle.std.specs.Prelude.{◌≡◌, ◌+◌, ◌≤◌, length, take, drop};
ghost use Rattle.configuration_addresses.specs.Address.{in_name, is_port, name_goes_on, host_and_port, length_fits, is_address};

// Whether the n bytes at p are 1 to 5 digits worth at most 65,535.
fn is_port(s: &[u8], p: usize, n: usize) -> bool
    requires { p + n ≤ length s.now }
    ensures { result ≡ is_port (take n (drop p s.now)) }
{
    if n < 1 {
        return false;
    }
    if 5 < n {
        return false;
    }
    let mut worth: u32 = 0;
    for k in p..p + n {
        let c = s[k];
        if c < b'0' {
            return false;
        }
        if b'9' < c {
            return false;
        }
        worth = worth * 10 + ((c - b'0') as u32);
        if 65535 < worth {
            return false;
        }
    }
    true
}

// Whether c may stand in a name.
fn in_name(c: u8) -> bool
    ensures { result ≡ in_name c }
{
    if c < 0x21 {
        return false;
    }
    if 0x7E < c {
        return false;
    }
    c != b':'
}

// Whether the n bytes at p, after a name's first one, are more of the name, one colon and a port.
fn is_named(s: &[u8], p: usize, n: usize) -> bool
    requires { p + n ≤ length s.now }
    ensures { result ≡ name_goes_on (take n (drop p s.now)) }
{
    let end = p + n;
    for k in p..end {
        let c = s[k];
        if c == b':' {
            return is_port(s, k + 1, end - (k + 1));
        }
        if !in_name(c) {
            return false;
        }
    }
    false
}

// Whether the n bytes at p are a name, one colon and a port.
fn is_host_and_port(s: &[u8], p: usize, n: usize) -> bool
    requires { p + n ≤ length s.now }
    ensures { result ≡ host_and_port (take n (drop p s.now)) }
{
    if n < 1 {
        return false;
    }
    if !in_name(s[p]) {
        return false;
    }
    is_named(s, p + 1, n - 1)
}

// Whether the n bytes at p are an address of this kind, but for their number.
pub fn is_address(s: &[u8], p: usize, n: usize, kind: u64) -> bool
    requires { p + n ≤ length s.now }
    ensures { result ≡ is_address kind (take n (drop p s.now)) }
{
    if kind == 1 {
        return body_digits::all_among(s, p, n, b'0', b'9');
    }
    if kind == 2 {
        return true;
    }
    is_host_and_port(s, p, n)
}

// Whether an address of this kind may have n bytes.
pub fn length_fits(kind: u64, n: u64) -> bool
    ensures { result ≡ length_fits kind n }
{
    if kind == 1 {
        return n == 11;
    }
    if kind == 2 {
        return n == 6;
    }
    true
}
