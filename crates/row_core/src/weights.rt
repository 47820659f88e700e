// The weights of a kernel, and the products that a pixel is made of.

ghost use Rattle.std.specs.Prelude.{◌≡◌, ◌↔◌, ◌*◌, IsTrue};
ghost use Rattle.row_core.specs.Weights.{ProductsOf};

// Opposite weights are equal, so five stand for nine: each has the name of its two offsets, and the last that of the centre. Diagonal and
// down, by which a Round kernel weighs, do not stand side by side: the compiler would fetch them as one, and make the last pixels of a row by
// that pair, which takes up to 1.4 times as long for rows of a few pixels.
#[derive(Clone, Copy)]
pub struct Weights {
    pub diagonal: u32,
    pub across: u32,
    pub down: u32,
    pub along: u32,
    pub centre: u32,
}

// The same weights, by the products that a pixel is made of. Pairs of pixels that weigh the same are added first and multiplied
// once, by `corners` or `sides`, and have 0 by themselves. A centre that weighs twice as much as a side is added twice to the
// pair that weighs so, and has 0 by itself too. Every product stands in the code of a pixel. Those that a kernel does not need
// have a constant 0 in what the functions below make of its weights: the compiler makes a loop over the row for each of
// these functions, and leaves them out of it (`tests/row_loops.py`).
#[derive(Clone, Copy)]
pub struct Products {
    pub diagonal: u32,
    pub down: u32,
    pub across: u32,
    pub along: u32,
    // What all four corners weigh, and all four sides.
    pub corners: u32,
    pub sides: u32,
    pub centre: u32,
    // How often the centre counts with the pair on its left and right, and with the pair above and below it: 0 or 2.
    pub centre_in_row: u32,
    pub centre_in_column: u32,
}

impl Products {
    // No product at all: what a kind of kernel does not need.
    const NONE: Products = Products {
        diagonal: 0,
        down: 0,
        across: 0,
        along: 0,
        corners: 0,
        sides: 0,
        centre: 0,
        centre_in_row: 0,
        centre_in_column: 0,
    };
}

// A kind is told by the fields that it needs, and each has its own: there is no size or constant that one function could take for all.
impl Weights {
    // Whether the centre weighs twice as much as the pixels beside it, as by S-2 where a kernel is no taller than wide.
    pub fn is_wide(self) -> bool
        ensures { IsTrue result ↔ (self.centre ≡ 2 * self.along) }
    {
        self.centre as u64 == 2 * (self.along as u64)
    }

    // Whether it weighs twice as much as the pixels above and below it.
    pub fn is_tall(self) -> bool
        ensures { IsTrue result ↔ (self.centre ≡ 2 * self.down) }
    {
        self.centre as u64 == 2 * (self.down as u64)
    }

    // Any kernel: five products.
    pub fn full(self) -> Products
        ensures { ProductsOf self result }
    {
        Products {
            diagonal: self.diagonal,
            down: self.down,
            across: self.across,
            along: self.along,
            centre: self.centre,
            ..Products::NONE
        }
    }

    // The centre weighs twice as much as the pixels beside it: four.
    pub fn full_wide(self) -> Products
        requires { self.centre ≡ 2 * self.along }
        ensures { ProductsOf self result }
    {
        Products {
            diagonal: self.diagonal,
            down: self.down,
            across: self.across,
            along: self.along,
            centre_in_row: 2,
            ..Products::NONE
        }
    }

    // Twice as much as the pixels above and below it: four.
    pub fn full_tall(self) -> Products
        requires { self.centre ≡ 2 * self.down }
        ensures { ProductsOf self result }
    {
        Products {
            diagonal: self.diagonal,
            down: self.down,
            across: self.across,
            along: self.along,
            centre_in_column: 2,
            ..Products::NONE
        }
    }

    // The centre weighs nothing: four.
    pub fn hollow(self) -> Products
        requires { self.centre ≡ 0 }
        ensures { ProductsOf self result }
    {
        Products {
            centre: 0,
            ..self.full()
        }
    }

    // Of the corners only those on the diagonal that falls to the right weigh something: four.
    pub fn falling(self) -> Products
        requires { self.across ≡ 0 }
        ensures { ProductsOf self result }
    {
        Products {
            across: 0,
            ..self.full()
        }
    }

    // Only those on the diagonal that rises to the right: four.
    pub fn rising(self) -> Products
        requires { self.diagonal ≡ 0 }
        ensures { ProductsOf self result }
    {
        Products {
            diagonal: 0,
            ..self.full()
        }
    }

    // No corner weighs anything: three.
    pub fn cross(self) -> Products
        requires { (self.diagonal ≡ 0) × (self.across ≡ 0) }
        ensures { ProductsOf self result }
    {
        Products {
            diagonal: 0,
            across: 0,
            ..self.full()
        }
    }

    // And all sides weigh the same: two.
    pub fn even_cross(self) -> Products
        requires { (self.diagonal ≡ 0) × (self.across ≡ 0) × (self.along ≡ self.down) }
        ensures { ProductsOf self result }
    {
        Products {
            sides: self.down,
            centre: self.centre,
            ..Products::NONE
        }
    }

    // All corners weigh the same: four.
    pub fn upright(self) -> Products
        requires { self.across ≡ self.diagonal }
        ensures { ProductsOf self result }
    {
        Products {
            diagonal: 0,
            across: 0,
            corners: self.diagonal,
            ..self.full()
        }
    }

    // And the centre twice as much as the pixels beside it: three.
    pub fn upright_wide(self) -> Products
        requires { (self.across ≡ self.diagonal) × (self.centre ≡ 2 * self.along) }
        ensures { ProductsOf self result }
    {
        Products {
            diagonal: 0,
            across: 0,
            corners: self.diagonal,
            ..self.full_wide()
        }
    }

    // Or as those above and below it: three.
    pub fn upright_tall(self) -> Products
        requires { (self.across ≡ self.diagonal) × (self.centre ≡ 2 * self.down) }
        ensures { ProductsOf self result }
    {
        Products {
            diagonal: 0,
            across: 0,
            corners: self.diagonal,
            ..self.full_tall()
        }
    }

    // All corners weigh the same, and all sides: three.
    pub fn round(self) -> Products
        requires { (self.across ≡ self.diagonal) × (self.along ≡ self.down) }
        ensures { ProductsOf self result }
    {
        Products {
            corners: self.diagonal,
            sides: self.down,
            centre: self.centre,
            ..Products::NONE
        }
    }

    // And the centre twice as much as a side: two.
    pub fn round_wide(self) -> Products
        requires { (self.across ≡ self.diagonal) × (self.along ≡ self.down) × (self.centre ≡ 2 * self.along) }
        ensures { ProductsOf self result }
    {
        Products {
            corners: self.diagonal,
            sides: self.down,
            centre_in_row: 2,
            ..Products::NONE
        }
    }
}
