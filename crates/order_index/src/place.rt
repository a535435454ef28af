ghost use Rattle.std.specs.Prelude.{◌≡◌, ◌+◌, ◌<◌, ◌^◌};

/// A place on the pages: a page, and how many of its entries stand before the place.
#[derive(Clone, Copy)]
pub struct Place {
    pub page: usize,
    pub index: usize,
}

impl Place {
    /// The place after the next entry of the page.
    pub fn next(self) -> Self
        requires { self.index + 1 < 2 ^ 64 }
        ensures { result ≡ record { page = self.page; index = self.index + 1 } }
    {
        Place {
            page: self.page,
            index: self.index + 1,
        }
    }
}
