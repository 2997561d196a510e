//! The random words of a node, of which session numbers are made (RFC 8990, section 2.7).

ghost use Rattle.std.specs.Prelude.{◌+◌};
ghost use Rattle.grasp_core.specs.Stands.{DrawsStand, Drawing};

use rand_chacha::ChaCha20Rng;
use rand_core::SeedableRng;
use rand_core::utils::NextWord;

/// A stream of random words, whose next one is kept.
#[derive(Drop)]
pub(crate) struct Draws {
    pub(crate) words: ChaCha20Rng,
    pub(crate) next: u32,
}

impl Draws {
    /// The words of this seed, from the first on.
    pub(crate) fn new(seed: [u8; 32]) -> Draws
        ensures { DrawsStand result seed 0 }
    {
        let mut words = ChaCha20Rng::from_seed(seed);
        let next = words.next_word();
        Draws { words, next }
    }

    /// One word is drawn.
    pub(crate) fn draw(&mut self)
        ensures { (x : Drawing) → DrawsStand self.old x.seed x.drawn → DrawsStand self.new x.seed (x.drawn + 1) }
    {
        self.next = self.words.next_word();
    }
}
