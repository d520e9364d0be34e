//! GHASH (SP 800-38D, sections 6.3 and 6.4). A block is a number whose highest bit is its first one,
//! which is the coefficient of x^0.
//!
//! What is proved:
//!
//! - `Ghash`: GHASH is SP 800-38D; a `Ghash` that is let go is zeros (`release`).
#![tactic(auto)]

ghost use Rattle.std.specs.Prelude.{◌≡◌, bit_xor, replicate};
ghost use Rattle.crypto_specs.specs.Prelude.{block_product};

use groups::{multiply_by, products, times_x64};
use std::marker::Model;

mod bits;
mod groups;

/// GHASH of the blocks so far. A contract sees the hash subkey and the value. Where it is let go, it is
/// cleared first.
pub struct Ghash {
    products: [u128; 16],
    // Of the hash subkey's product by x^64.
    far_products: [u128; 16],
    value: u128,
}

impl Model for Ghash {
    ghost use Rattle.std.specs.Prelude.{ℕ};

    ghost Value = { ℕ × ℕ };

    ghost use Rattle.std.specs.Prelude.{slice_index};
    ghost use Rattle.ghash.specs.Products.{AreProducts};

    // The bits 1000 are the polynomial 1.
    ghost view = { λ a. (slice_index a.products 8, a.value) };

    // The products are those of the hash subkey; so all of them are 0 where it is.
    ghost invariant = { λ a. AreProducts a.products a.far_products (slice_index a.products 8) };
}

impl Ghash {
    /// GHASH of no blocks under the hash subkey `h`.
    pub fn new(h: u128) -> Ghash
        ensures { result ≡ (h, 0) }
    {
        Ghash {
            products: products(h),
            far_products: products(times_x64(h)),
            value: 0,
        }
    }

    /// Takes in one more block (SP 800-38D, section 6.4, step 3).
    pub fn block(&mut self, x: u128)
        ensures { self.new ≡ (self.old.0, block_product (bit_xor self.old.1 x) self.old.0) }
    {
        self.value = multiply_by(self.value ^ x, &self.products, &self.far_products);
    }

    /// GHASH of the blocks so far.
    pub fn value(&self) -> u128
        ensures { result ≡ self.now.1 }
    {
        self.value
    }

    /// Clears the hash subkey with its products, and the value.
    pub fn wipe(&mut self)
        ensures { self.new ≡ (0, 0) }
    {
        self.products = [0; 16];
        self.far_products = [0; 16];
        self.value = 0;
    }
}

impl Drop for Ghash {
    fn drop(mut self) {
        self.wipe();
        let Ghash {
            products,
            far_products,
            value,
        } = self;
        release(&products, &far_products, value);
    }
}

/// The product of two blocks, as polynomials modulo x^128 + x^7 + x^2 + x + 1 (SP 800-38D, section 6.3).
pub fn multiply(x: u128, y: u128) -> u128
    ensures { result ≡ block_product x y }
{
    let mut hash = Ghash::new(y);
    hash.block(x);
    hash.value()
}

// What is let go of a hash: zeros.
fn release(products: &[u128; 16], far_products: &[u128; 16], value: u128)
    requires products { products.now ≡ replicate 16 0 }
    requires far_products { far_products.now ≡ replicate 16 0 }
    requires value { value ≡ 0 }
{}
