//! Numbers that are drawn one after another.

ghost use Rattle.std.specs.Prelude.{◌≡◌, ◌<◌};
ghost use Rattle.grasp_script_draws.specs.Generator.{next_number, drawn_below, drawn_after, draws_from};
ghost use Rattle.grasp_script_draws.specs.Drawing.{IsDrawn};

/// The number that was drawn last.
#[derive(Drop)]
pub(crate) struct Numbers {
    pub(crate) last: u64,
}

/// What is drawn for a round.
#[derive(Clone, Copy)]
pub(crate) struct RoundDraws {
    pub(crate) asking: u64,
    pub(crate) asked: u64,
    pub(crate) length: u64,
    pub(crate) chance: u64,
}

impl Numbers {
    /// Draws a number below this one.
    #[tactic(auto, using(crate::proofs::Drawing::drawn))]
    fn draw(&mut self, below: u64) -> u64
        requires { 0 < below }
        ensures next { self.new.last ≡ next_number self.old.last }
        ensures drawn { result ≡ drawn_below below self.new.last }
        ensures less { result < below }
    {
        self.last = self
            .last
            .wrapping_mul(6_364_136_223_846_793_005)
            .wrapping_add(1_442_695_040_888_963_407);
        (self.last >> 33) % below
    }

    /// Draws what a round wants.
    #[tactic(auto, unfolding(crate::specs::Generator::drawn_after, crate::specs::Generator::draws_from))]
    pub(crate) fn round(&mut self) -> RoundDraws
        ensures next { self.new.last ≡ drawn_after 4 self.old.last }
        ensures drawn { IsDrawn result (draws_from self.old.last) }
    {
        let asking = 5 + self.draw(12);
        let asked = 1 + self.draw(4);
        let length = 48 + self.draw(17);
        let chance = self.draw(8);
        RoundDraws {
            asking,
            asked,
            length,
            chance,
        }
    }
}
