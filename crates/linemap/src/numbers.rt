// Little-endian numbers in bytes, and sums of 32-bit words.
ghost use Rattle.std.specs.Prelude.{◌≡◌, ◌+◌, ◌*◌, ◌^◌, ◌<◌, ◌≤◌, length};
ghost use Rattle.finite.specs.Numbers;
ghost use Rattle.linemap.specs.Words;
ghost use Rattle.linemap.specs.Internal.Stages;

// The number in n bytes from `at`: a field has one, two, four or eight.
pub(crate) fn get(s: &[u8], at: usize, n: usize) -> u64
    requires { (n ≤ 8) × (at + n ≤ length s.now) }
    ensures { (result ≡ Numbers.number s.now at n) × (result < 2 ^ (8 * n)) }
{
    let mut bytes = [0u8; 8];
    bytes[..n].copy_from_slice(&s[at..at + n]);
    u64::from_le_bytes(bytes)
}

// The lowest n bytes of x, from `at`.
pub(crate) fn put(buf: &mut [u8], at: usize, n: usize, x: u64)
    requires { (n ≤ 8) × (at + n ≤ length buf.old) }
    ensures { buf.new ≡ Stages.put buf.old at (Numbers.bytes n x) }
{
    buf[at..at + n].copy_from_slice(&x.to_le_bytes()[..n]);
}

// The n words from `at`, added with wrap at 2^32.
pub(crate) fn sum_words(s: &[u8], at: usize, n: usize) -> u32
    requires { at + 4 * n ≤ length s.now }
    ensures { result ≡ Words.sum_words s.now at n }
{
    let mut sum: u32 = 0;
    for i in 0..n {
        let word = get(s, at + 4 * i, 4) as u32;
        sum = sum.wrapping_add(word);
    }
    sum
}
