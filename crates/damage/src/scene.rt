use crate::deed::Deed;
use crate::harm::Harm;
use crate::stock::Pool;
use crate::tally::Tally;

/// A pool in good order, of which each trial harms a copy, and the calls that are made on the copy before the one that is
/// counted.
#[derive(Clone, Copy)]
pub(crate) struct Scene<'a> {
    pool: Pool,
    earlier: &'a [Deed],
}

impl<'a> Scene<'a> {
    pub(crate) fn new(pool: Pool, earlier: &'a [Deed]) -> Scene<'a> {
        Scene { pool, earlier }
    }

    /// How a call is answered, over all harms and shelves.
    pub(crate) fn tally(&self, harms: &[Harm], shelves: &[u8], deed: Deed) -> Tally {
        let mut tally = Tally::default();
        for &shelf in shelves {
            self.try_harms(harms, shelf, deed, &mut tally);
        }
        tally
    }

    fn try_harms(&self, harms: &[Harm], shelf: u8, deed: Deed, tally: &mut Tally) {
        for &harm in harms {
            self.try_harm(harm, shelf, deed, tally);
        }
    }

    /// Makes a fresh harmed copy of the pool and one call on it, and adds its answer to the tally.
    fn try_harm(&self, harm: Harm, shelf: u8, deed: Deed, tally: &mut Tally) {
        let mut pool = self.pool;
        harm.inflict(&mut pool);
        for earlier in self.earlier {
            let _ = pool.play(&earlier.on(shelf));
        }
        let before = pool;
        let reply = pool.play(&deed.on(shelf));
        tally.add(reply, pool == before);
    }
}
