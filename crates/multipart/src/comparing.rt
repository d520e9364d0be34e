// What was computed, compared with what was given.
ghost use Rattle.std.specs.Prelude.{◌≡◌, ◌≤◌, bytes_eq, length, replicate, take};

/// Whether two lists of bytes are the same. The comparison doesn't end at the first byte that differs.
pub fn is_equal(given: &[u8], computed: &[u8]) -> bool
    ensures { result ≡ bytes_eq given.now computed.now }
{
    if given.len() != computed.len() {
        return false;
    }
    let mut same = true;
    'bytes: for i in 0..given.len() {
        same &= given[i] == computed[i];
    }
    same
}

/// Whether these are the first `count` bytes of what was computed, which is then wiped whole. The comparison doesn't end
/// at the first byte that differs.
pub fn is_front(given: &[u8], computed: &mut [u8], count: usize) -> bool
    requires { count ≤ length computed.old }
    ensures same { result ≡ bytes_eq given.now (take count computed.old) }
    ensures wiped { computed.new ≡ replicate (length computed.old) 0 }
{
    let same = is_equal(given, &computed[..count]);
    computed.fill(0);
    same
}
