// What the pixels of a step are made with.

ghost use Rattle.row_core.specs.Weights.{Divides, ProductsOf};

use crate::weights::{Products, Weights};

// What every pixel of a step by one kernel is made with.
#[derive(Clone, Copy)]
pub struct Coefficients {
    pub weights: Weights,
    // 2^32 over twice the step count, upward.
    pub reciprocal: u32,
    // Half the sum of the weights, for rounding.
    pub half: u64,
    // What the sum of the weights leaves over whole steps, which is 0. The compiler does not know that: it adds pixels that it was added
    // to as numbers of 32 bits, four at a time, and would widen each of them to 64 bits before it adds them otherwise.
    pub rest: u32,
    ghost divides: { Divides weights reciprocal half rest },
}

// The same with the products that the kernel needs: how a pixel is made.
#[derive(Clone, Copy)]
pub struct Recipe {
    pub coefficients: Coefficients,
    pub products: Products,
    ghost products_of: { ProductsOf coefficients.weights products },
}
