// The sets as a matrix of bits, row i the set of station i, and its transpose, whose row i holds those who name i. A pass over whole
// rows exchanges one bit of the row's number with one of the column's: six passes exchange the numbers.
ghost use Rattle.std.specs.Prelude.{◌≡◌, ◌<◌, length};
ghost use Rattle.topology.specs.Internal.Matrix;

// The columns in `firsts` of two rows: those of a in place, those of b moved up by the width.
fn interleave(a: u64, b: u64, width: u8, firsts: u64) -> u64
    requires { width < 64 }
    ensures { result ≡ Matrix.interleaved a b width firsts }
{
    (a & firsts) | ((b & firsts) << width)
}

// One pass: of rows i and i + 32, row 2i takes the columns in `firsts`, and row 2i + 1 those a width further on.
fn exchange(from: &[u64; 64], to: &mut [u64; 64], width: u8, firsts: u64)
    requires { (width < 64) × (length to.old ≡ 64) }
    ensures { Matrix.Exchanged width firsts from.now to.new }
{
    for i in 0..32 {
        let a = from[i];
        let b = from[i + 32];
        let even = interleave(a, b, width, firsts);
        let odd = interleave(a >> width, b >> width, width, firsts);
        to[2 * i] = even;
        to[2 * i + 1] = odd;
    }
}

// Who names each of the 64 stations.
pub(crate) fn transpose(sets: &[u64; 64]) -> [u64; 64]
    ensures { Matrix.Transposed sets.now result }
{
    let mut rows = [0u64; 64];
    let mut spare = [0u64; 64];
    exchange(sets, &mut spare, 32, 0x0000_0000_ffff_ffff);
    exchange(&spare, &mut rows, 16, 0x0000_ffff_0000_ffff);
    exchange(&rows, &mut spare, 8, 0x00ff_00ff_00ff_00ff);
    exchange(&spare, &mut rows, 4, 0x0f0f_0f0f_0f0f_0f0f);
    exchange(&rows, &mut spare, 2, 0x3333_3333_3333_3333);
    exchange(&spare, &mut rows, 1, 0x5555_5555_5555_5555);
    rows
}
