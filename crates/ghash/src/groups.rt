// The product of a block and a fixed one, four bits at a time by tables of products of the fixed one.

ghost use Rattle.std.specs.Prelude.{◌≡◌, ℕ, bit_xor};
ghost use Rattle.crypto_specs.specs.Prelude.{block_product};
ghost use Rattle.ghash.specs.Products.{joined_halves, products_of, shifted, times_x4};

use crate::bits::times_x;

// What the lowest four bits of a block become under the product by x^4: the high half of a block whose
// low one is 0.
const REDUCTIONS: [u64; 16] = [
    0x0000 << 48,
    0x1c20 << 48,
    0x3840 << 48,
    0x2460 << 48,
    0x7080 << 48,
    0x6ca0 << 48,
    0x48c0 << 48,
    0x54e0 << 48,
    0xe100 << 48,
    0xfd20 << 48,
    0xd940 << 48,
    0xc560 << 48,
    0x9180 << 48,
    0x8da0 << 48,
    0xa9c0 << 48,
    0xb5e0 << 48,
];

// The products of a block and each polynomial of degree below 4, whose four bits are the place.
pub(crate) fn products(h: u128) -> [u128; 16]
    ensures { result ≡ products_of h }
{
    let x1 = times_x(h);
    let x2 = times_x(x1);
    let x3 = times_x(x2);
    let low = x2 ^ x3;
    let high = h ^ x1;
    [
        0,
        x3,
        x2,
        low,
        x1,
        x1 ^ x3,
        x1 ^ x2,
        x1 ^ low,
        h,
        h ^ x3,
        h ^ x2,
        h ^ low,
        high,
        high ^ x3,
        high ^ x2,
        high ^ low,
    ]
}

// A block in two halves: shifts of them cost less than those of a u128.
#[derive(Drop)]
struct Halves {
    high: u64,
    low: u64,
}

impl Halves {
    // The halves of a block.
    fn of(block: u128) -> Halves
        ensures { joined_halves result.high result.low ≡ block }
    {
        Halves {
            high: (block >> 64) as u64,
            low: (block % (1 << 64)) as u64,
        }
    }

    // The product by x^4, and a block added to it.
    fn times_x4_plus(self, block: u128) -> Halves
        ensures { joined_halves result.high result.low ≡ bit_xor (times_x4 (joined_halves self.high self.low)) block }
    {
        let added = Halves::of(block);
        Halves {
            high: (self.high >> 4) ^ REDUCTIONS[(self.low % 16) as usize] ^ added.high,
            low: (self.low >> 4) ^ (self.high << 60) ^ added.low,
        }
    }

    // The block of the halves.
    fn joined(self) -> u128
        ensures { result ≡ joined_halves self.high self.low }
    {
        (u128::from(self.high) << 64) + u128::from(self.low)
    }
}

// The product of a block and x^64.
pub(crate) fn times_x64(block: u128) -> u128
    ensures { result ≡ shifted 64 block }
{
    let mut product = Halves::of(block);
    'groups: for _ in 0..16u32 {
        let next = product.times_x4_plus(0);
        product = next;
    }
    product.joined()
}

// The product of a block and the one that the products in `near` are of. Those in `far` are of the
// latter's product by x^64, so that a turn, which waits for the one before it, takes a byte of either
// half.
pub(crate) fn multiply_by(x: u128, near: &[u128; 16], far: &[u128; 16]) -> u128
    ensures { (h : ℕ) → near.now ≡ products_of h → far.now ≡ products_of (shifted 64 h) → result ≡ block_product x h }
{
    let halves = Halves::of(x);
    let mut sum = Halves { high: 0, low: 0 };
    'bytes: for n in 0..8u32 {
        let high = ((halves.high >> (8 * n)) % 256) as usize;
        let low = ((halves.low >> (8 * n)) % 256) as usize;
        let half = sum.times_x4_plus(near[high % 16] ^ far[low % 16]);
        let whole = half.times_x4_plus(near[high / 16] ^ far[low / 16]);
        sum = whole;
    }
    sum.joined()
}
