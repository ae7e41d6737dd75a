// How many places a table may have. What may refuse the making of a table is tested here; the making then cannot refuse.
ghost use Rattle.std.specs.Prelude.{◌≡◌, true, false, MatchResult};
ghost use Rattle.refusal.specs.declared.Refusal.TheVariants.{OutOfRange};
ghost use Rattle.refusal.specs.Refusals.{fault_at};
ghost use Rattle.stores.specs.Sizes.{is_size};

use refusal::{Fault, Refusal};

// The places of the largest table.
pub const MOST_PLACES: usize = 1024;

// A number of places that a table may have; only `check` makes one.
#[derive(Clone, Copy)]
pub struct TableSize {
    count: usize,
    ghost fits: { is_size count ≡ true },
}

impl TableSize {
    // A call of its own and no `TryFrom`: a rule of this project wants a first call that refuses.
    pub fn check(count: usize) -> Result<TableSize, Fault>
        ensures { MatchResult result (λ s. (s.count ≡ count) × (is_size count ≡ true)) (λ e. (e ≡ fault_at OutOfRange 0) × (is_size count ≡ false)) }
    {
        if count < 1 || count > MOST_PLACES {
            return Err(Fault::new(Refusal::OutOfRange, 0));
        }
        Ok(TableSize { count })
    }

    pub fn count(self) -> usize
        ensures { result ≡ self.count }
    {
        self.count
    }
}
