// The window of a search: it tells worths from low to high apart, and takes one outside for the nearest of them.
ghost use Rattle.std.specs.Prelude.{◌≡◌, ◌-◌, ◌≤◌, min, ◌==◌};
ghost use Rattle.cards.specs.Table.{pick};
ghost use Rattle.cards.specs.Numbers.{side_number};
ghost use Rattle.worth.specs.Search.{clamp, exact};

use cards::player::Side;

#[derive(Clone, Copy)]
pub(crate) struct Window {
    pub(crate) low: u8,
    pub(crate) high: u8,
    ghost order: { low ≤ high },
}

impl Window {
    // The number within it that is nearest to a worth.
    pub(crate) fn nearest(self, worth: u8) -> u8
        ensures { result ≡ clamp self.low self.high worth }
    {
        worth.min(self.high).max(self.low)
    }

    // Whether there is one number within it, so that nothing is left to find.
    pub(crate) fn is_closed(self) -> bool
        ensures { result ≡ (self.low == self.high) }
    {
        self.low == self.high
    }

    // The window for what follows a gain, with so many tricks left.
    pub(crate) fn after(self, gain: u8, left: u8) -> Window
        requires { self.low ≤ left }
        ensures low { result.low ≡ self.low - gain }
        ensures high { result.high ≡ min (self.high - gain) left }
    {
        Window {
            low: self.low.saturating_sub(gain),
            high: self.high.saturating_sub(gain).min(left),
        }
    }

    // Whether a worth found within it, of so many tricks left, is the worth itself and no bound of it.
    pub(crate) fn is_exact(self, left: u8, worth: u8) -> bool
        ensures { result ≡ exact self.low self.high left worth }
    {
        (self.low < worth || self.low == 0) && (worth < self.high || self.high == left)
    }

    // The window once a card brings a worth: our side can choose the card and raises low, the others can and lower high.
    pub(crate) fn narrowed(self, side: Side, worth: u8) -> Window
        ensures low { result.low ≡ pick (side_number side == 0) (clamp self.low self.high worth) self.low }
        ensures high { result.high ≡ pick (side_number side == 0) self.high (clamp self.low self.high worth) }
    {
        let found = self.nearest(worth);
        match side {
            Side::Ours => Window {
                low: found,
                high: self.high,
            },
            Side::Others => Window {
                low: self.low,
                high: found,
            },
        }
    }

    // What it comes to once every card was tried: our side has no more than low, the others allow no less than high.
    pub(crate) fn reached(self, side: Side) -> u8
        ensures { result ≡ pick (side_number side == 0) self.low self.high }
    {
        match side {
            Side::Ours => self.low,
            Side::Others => self.high,
        }
    }
}
