use crate::Copied;
use std::alloc::AllocError;
use std::marker::Model;

/// A list of items. A contract sees it as the items alone.
#[derive(Debug, Drop)]
pub struct List<X> {
    items: Vec<X>,
}

impl<X> Model for List<X> {
    ghost use Rattle.std.specs.Prelude.{List as Seq};
    ghost use Rattle.std.specs.Coded.{coded_list};

    ghost Value = { Seq X };

    ghost coded = { coded_list X.code };

    ghost view = { λ l. l.items.items };
}

impl<X> List<X> {
    ghost use Rattle.std.specs.Prelude.{◌≡◌, ◌==◌, length};

    /// The list of these items.
    pub fn of(items: Vec<X>) -> Self
        ensures { result ≡ items.items }
    {
        List { items }
    }

    /// The items, as a vector.
    pub fn into_vec(self) -> Vec<X>
        ensures { result.items ≡ self }
    {
        let List { items } = self;
        items
    }

    /// The items.
    pub fn as_slice(&self) -> &[X]
        ensures { result.now ≡ self.now }
    {
        &self.items
    }

    /// How many items there are.
    pub fn len(&self) -> usize
        ensures { result ≡ length self.now }
    {
        self.items.len()
    }

    /// Is there no item?
    pub fn is_empty(&self) -> bool
        ensures { result ≡ (length self.now == 0) }
    {
        self.items.is_empty()
    }
}

impl<X: Copied> Clone for List<X> {
    ghost use Rattle.std.specs.Prelude.{◌≡◌};

    ghost is_clone = { λ original clone. clone ≡ original };

    fn clone(&self) -> Result<Self, AllocError> {
        Ok(List {
            items: self.items.clone()?,
        })
    }
}

impl<X: PartialEq> PartialEq for List<X> {
    ghost use Rattle.std.specs.Cmp.Lexicographic.{pointwise, lists_per};

    ghost eq = { pointwise X.eq };

    ghost laws = { lists_per X.laws };

    fn eq(&self, other: &Self) -> bool {
        self.items == other.items
    }
}

impl<X: Eq> Eq for List<X> {
    ghost use Rattle.std.specs.Cmp.Lexicographic.{lists_equiv};

    ghost laws = { lists_equiv X.Eq.laws };
}

impl<X: Copied> Copied for List<X> {
    ghost exact = { λ _ _ same. same };
}
