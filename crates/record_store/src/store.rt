ghost use Rattle.std.specs.Prelude.{◌≡◌, Some};
ghost use Rattle.record_store.specs.Interns.{Interns};
ghost use Rattle.record_store.specs.StoreView.{StoreView, find_in, IsKnown};

/// A body is not known to the store, and there is no room for it.
#[derive(Clone, Copy, Debug, PartialEq, Eq)]
pub struct StoreFull;

/// A store of the bodies of nodes: each has an id, from 1 on, and none has two.
pub trait Store {
    ghost view: { Self → StoreView };

    /// The id of a body, which is put into the store where it is not known.
    fn intern(&mut self, body: &[u64; 8]) -> Result<u32, StoreFull>
        ensures { Interns (view self.old) (view self.new) body.now result };

    /// The body under an id.
    fn fields(&mut self, id: u32) -> [u64; 8]
        requires { IsKnown (view self.old) id }
        ensures body { find_in (view self.old) id ≡ Some result }
        ensures unchanged { view self.new ≡ view self.old };
}
